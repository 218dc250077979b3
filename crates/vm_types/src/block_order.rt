ghost use Rattle.std.specs.Prelude.{◌≡◌, ◌+◌, nat_eq};
ghost use Rattle.vm_types.specs.BlockOrder.{is_next_block, if_next};

use crate::names::BlockId;

/// Whether a number is the one after another.
fn is_next(m: u32, n: u32) -> bool
    ensures { result ≡ nat_eq n (m + 1) }
{
    m < n && n - m == 1
}

/// Whether a block is the one after another: of the page file, of one process's swap blocks, or of one
/// section.
pub fn is_next_block(b: BlockId, c: BlockId) -> bool
    ensures { result ≡ is_next_block b c }
{
    match (b, c) {
        (BlockId::PageFile(m), BlockId::PageFile(n)) => is_next(m, n),
        (BlockId::Swap(p, m), BlockId::Swap(q, n)) => p.0 == q.0 && is_next(m, n),
        (BlockId::Section(s, i), BlockId::Section(t, j)) => s.0 == t.0 && is_next(i, j),
        _ => false,
    }
}

/// A block that is fixed, if it is the one after the last block, or there is no last one.
pub fn if_next(last: Option<BlockId>, b: BlockId) -> Option<BlockId>
    ensures { result ≡ if_next last b }
{
    match last {
        Some(l) => { if is_next_block(l, b) { Some(b) } else { None } }
        None => Some(b),
    }
}
