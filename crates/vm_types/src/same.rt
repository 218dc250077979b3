//! Whether two names name the same thing.

ghost use Rattle.std.specs.Prelude.{◌≡◌};
ghost use Rattle.vm_types.specs.Same.{same_block, same_page, same_state};

use crate::names::{BlockId, FrameState, Page};

/// Whether both are the same page.
pub fn is_same_page(one: Page, other: Page) -> bool
    ensures { result ≡ same_page one other }
{
    match (one, other) {
        (Page::Private(p, v), Page::Private(q, w)) => p.0 == q.0 && v == w,
        (Page::Shared(s, i), Page::Shared(t, j)) => s.0 == t.0 && i == j,
        (Page::Private(_, _), Page::Shared(_, _)) | (Page::Shared(_, _), Page::Private(_, _)) =>
            false,
    }
}

/// Whether both are the same block.
pub fn is_same_block(one: BlockId, other: BlockId) -> bool
    ensures { result ≡ same_block one other }
{
    match (one, other) {
        (BlockId::Section(s, i), BlockId::Section(t, j)) => s.0 == t.0 && i == j,
        (BlockId::PageFile(i), BlockId::PageFile(j)) => i == j,
        (BlockId::Swap(p, n), BlockId::Swap(q, m)) => p.0 == q.0 && n == m,
        _ => false,
    }
}

/// Whether both are the same state of a frame.
pub fn is_same_state(one: FrameState, other: FrameState) -> bool
    ensures { result ≡ same_state one other }
{
    one as u8 == other as u8
}
