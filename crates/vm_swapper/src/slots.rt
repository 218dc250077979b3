ghost use Rattle.std.specs.Prelude.{◌≡◌, ◌<◌, ◌&&◌, length, not};
ghost use Rattle.pager_model.specs.Lying.{lies_in, lying_in};
ghost use Rattle.pager_policy.specs.Given.{Seen as Shown, address_of, seen_at};
ghost use Rattle.pager_model.specs.Lookups.{passes, is};
ghost use Rattle.pager_model.specs.Maps.{is_private};
ghost use Rattle.pager_policy.specs.Swap.{is_back_on_free, is_out_page, is_saved, is_shared_seen, is_shared_unpinned, is_still, is_to_save};
ghost use Rattle.vm_types.specs.declared.names.BlockId.TheVariants as block;
ghost use Rattle.vm_types.specs.declared.names.FrameState.TheVariants as state;
ghost use Rattle.vm_state.specs.History.{pager};
ghost use Rattle.vm_state.specs.PageReadings.{IsKnown};
ghost use Rattle.vm_swapper.specs.Runs.{address_at, frame_at};
ghost use Rattle.vm_swapper.specs.SeenSlots.{IsPlaced, HasSmallNumber, seen_as};

use crate::seen::{Seen, is_private, is_still, see};
use disk_trait::Block;
use vm_state::State;
use vm_types::{Addr, BlockId, FrameState, PAGE_BYTES, Page, Pfn, Proc};

/// Whether it is the swap block of this slot.
fn lies_in(lies: Option<BlockId>, p: Proc, n: u32) -> bool
    ensures { result ≡ lies_in lies (block.Swap p n) }
{
    match lies {
        Some(b) => match b {
            BlockId::Section(..) => false,
            BlockId::PageFile(_) => false,
            BlockId::Swap(q, m) => q.0 == p.0 && m == n,
        },
        None => false,
    }
}

/// Whether the page in a frame of the configuration is unmodified, and has no open transfer.
fn is_clean<B: Block>(state: &State<B>, f: Pfn) -> bool
    requires { f.0 < state.now.config.frames }
    ensures { result ≡ (not ((pager state.now).modify f.0) && is_still state.now.past f.0) }
{
    let row = state.frame(f);
    if row.modify {
        false
    } else {
        is_still(state, f)
    }
}

/// Whether a page that is seen in this slot is private, lies in the slot's swap block, is unmodified, and
/// has no open transfer; pinned or not.
fn lies_saved<B: Block>(state: &State<B>, p: Proc, n: u32, x: Seen) -> bool
    requires { IsPlaced state.now.config x }
    ensures { result ≡ (is_private x.page && (lies_in ((pager state.now).lies x.page) (block.Swap p n) && (not ((pager state.now).modify (x.frame).0) && is_still state.now.past (x.frame).0))) }
{
    match x.page {
        Page::Private(..) => {
            let backing = state.backing(x.page);
            if lies_in(backing.lies, p, n) {
                is_clean(state, x.frame)
            } else {
                false
            }
        }
        Page::Shared(..) => false,
    }
}

/// Whether both are true.
fn both(one: bool, other: bool) -> bool
    ensures { result ≡ (one && other) }
{
    one && other
}

/// Whether a page that is seen in this slot isn't pinned, is private, lies in the slot's swap block, is
/// unmodified, and has no open transfer.
fn is_saved<B: Block>(state: &State<B>, p: Proc, n: u32, x: Seen) -> bool
    requires { IsPlaced state.now.config x }
    ensures { result ≡ is_saved state.now.past (pager state.now) p.0 n (seen_as x) }
{
    both(!x.pinned, lies_saved(state, p, n, x))
}

/// Whether a page that is seen in a slot is private and not pinned, and has no open transfer.
fn is_to_save<B: Block>(state: &State<B>, x: Seen) -> bool
    requires { IsPlaced state.now.config x }
    ensures { result ≡ is_to_save state.now.past (seen_as x) }
{
    is_private(x.page) && !x.pinned && is_still(state, x.frame)
}

/// Whether a slot (any number) of a process of the configuration has a shared page, pinned or not.
pub fn has_shared<B: Block>(state: &State<B>, p: Proc, n: u32) -> bool
    requires { p.0 < length state.now.config.procs }
    ensures { result ≡ passes (λ (s : Shown). is_shared_seen s) (seen_at (pager state.now) p.0 n) }
{
    match see(state, p, n) {
        Some(x) => !is_private(x.page),
        None => false,
    }
}

/// Whether a slot (any number) of a process of the configuration has a shared page that isn't pinned.
pub fn has_shared_unpinned<B: Block>(state: &State<B>, p: Proc, n: u32) -> bool
    requires { p.0 < length state.now.config.procs }
    ensures { result ≡ passes (λ (s : Shown). is_shared_unpinned s) (seen_at (pager state.now) p.0 n) }
{
    match see(state, p, n) {
        Some(x) => !is_private(x.page) && !x.pinned,
        None => false,
    }
}

/// Whether a slot (any number) of a process of the configuration has a private page that lies in its
/// swap block, not pinned, unmodified and without an open transfer.
pub fn has_saved<B: Block>(state: &State<B>, p: Proc, n: u32) -> bool
    requires { p.0 < length state.now.config.procs }
    ensures { result ≡ passes (is_saved state.now.past (pager state.now) p.0 n) (seen_at (pager state.now) p.0 n) }
{
    match see(state, p, n) {
        Some(x) => is_saved(state, p, n, x),
        None => false,
    }
}

/// The number of the frame of the private page, not pinned and without an open transfer, that a slot (any number) of a process of the
/// configuration has; none if it has none.
pub fn frame_at<B: Block>(state: &State<B>, p: Proc, n: u32) -> Option<u32>
    requires { p.0 < length state.now.config.procs }
    ensures { result ≡ frame_at state.now.past (pager state.now) p.0 n }
{
    match see(state, p, n) {
        Some(x) => {
            if is_to_save(state, x) {
                Some(x.frame.0)
            } else {
                None
            }
        }
        None => None,
    }
}

/// Whether a frame in this state is on the free list.
fn is_free(s: FrameState) -> bool
    ensures { result ≡ is state.Free s }
{
    matches!(s, FrameState::Free)
}

/// Whether the frame that holds a page is on the free list.
fn is_back_on_free<B: Block>(state: &State<B>, page: Page) -> bool
    requires { IsKnown state.now.config page }
    ensures { result ≡ is_back_on_free state.now.config (pager state.now) page }
{
    state.run_law();
    match state.backing(page).frame {
        Some(f) => is_free(state.frame(f).state),
        None => false,
    }
}

/// Whether the page that lies in the swap block of a slot (any number) of a process is in a frame on the
/// free list.
pub fn is_on_free_at<B: Block>(state: &State<B>, p: Proc, n: u32) -> bool
    ensures { result ≡ passes (is_back_on_free state.now.config (pager state.now)) (lying_in (pager state.now) p.0 n) }
{
    state.run_law();
    match state.swapped(p, n) {
        Some(page) => is_back_on_free(state, page),
        None => false,
    }
}

/// The first address of a page.
pub fn address_of(page: Page) -> Addr
    requires { HasSmallNumber page }
    ensures { result ≡ address_of page }
{
    match page {
        Page::Private(_, v) => Addr(PAGE_BYTES * v),
        Page::Shared(..) => Addr(0),
    }
}

/// Whether a page is in no frame.
fn is_out<B: Block>(state: &State<B>, page: Page) -> bool
    requires { IsKnown state.now.config page }
    ensures { result ≡ is_out_page state.now.config (pager state.now) page }
{
    state.backing(page).frame.is_none()
}

/// The address of the page that lies in the swap block of a slot (any number) of a process, and is in no
/// frame; none if none is.
pub fn address_at<B: Block>(state: &State<B>, p: Proc, n: u32) -> Option<u32>
    ensures { result ≡ address_at state.now.config (pager state.now) p.0 n }
{
    state.run_law();
    match state.swapped(p, n) {
        Some(page) => {
            if is_out(state, page) {
                Some(address_of(page).0)
            } else {
                None
            }
        }
        None => None,
    }
}
