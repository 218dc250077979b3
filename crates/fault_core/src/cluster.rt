ghost use Rattle.std.specs.Prelude.{◌≡◌, ◌+◌, ◌≤◌, ◌<◌, ◌^◌, ◌&&◌, ◌||◌, [], Some, length, nat_lt, not, slice_get, true};
ghost use Rattle.vm_types.specs.Configuration.{IsBlock, IsWellFormed};
ghost use Rattle.vm_types.specs.declared.names.BlockId.TheVariants as block;
ghost use Rattle.vm_types.specs.declared.names.Page.{Page};
ghost use Rattle.pager_policy.specs.Advance.{block_after, following, following_owner, following_shared, is_out, owner_of, window};
ghost use Rattle.pager_model.specs.Lying.{lies_in};
ghost use Rattle.pager_model.specs.Charging.{is_uncharged};
ghost use Rattle.pager_model.specs.ClusterLength.{cluster_length};
ghost use Rattle.pager_model.specs.In.{is_kin};
ghost use Rattle.pager_model.specs.Maps.{is_paged};
ghost use Rattle.vm_state.specs.History.{pager};
ghost use Rattle.vm_state.specs.PageReadings.{IsKnown};
ghost use Rattle.fault_core.specs.Reads.{IsWindow, block_place, page_place, reach_of};

use crate::faults::is_uncharged;
use crate::sought::Sought;
use arrayvec::ArrayVec;
use disk_trait::Block;
use read_cluster::choose;
use vm_state::State;
use vm_types::{BlockId, PAGE_BYTES, Page, SecId};

/// The block so many places behind another.
pub fn block_after(b: BlockId, places: u32) -> BlockId
    requires { block_place b + places < 2 ^ 32 }
    ensures { result ≡ block_after b places }
{
    match b {
        BlockId::Section(s, i) => BlockId::Section(s, i + places),
        BlockId::PageFile(n) => BlockId::PageFile(n + places),
        BlockId::Swap(p, n) => BlockId::Swap(p, n + places),
    }
}

/// Whether two pages are private to one process, or of one section.
fn is_kin(g: Page, h: Page) -> bool
    ensures { result ≡ is_kin g h }
{
    match g {
        Page::Private(p, _) => match h {
            Page::Private(q, _) => p.0 == q.0,
            Page::Shared(..) => false,
        },
        Page::Shared(s, _) => match h {
            Page::Private(..) => false,
            Page::Shared(t, _) => s.0 == t.0,
        },
    }
}

/// Whether a page lies in this block of the page file.
fn lies_in(lies: Option<BlockId>, n: u32) -> bool
    ensures { result ≡ lies_in lies (block.PageFile n) }
{
    match lies {
        Some(b) => match b {
            BlockId::Section(..) => false,
            BlockId::PageFile(m) => m == n,
            BlockId::Swap(..) => false,
        },
        None => false,
    }
}

/// The page of a section that may follow so many places behind the faulting one.
fn following_shared<B: Block>(state: &State<B>, s: SecId, i: u32) -> Option<Page>
    ensures { result ≡ following_shared (slice_get state.now.config.sections s.0) s i }
{
    let section = state.config().sections.items().get(s.0 as usize)?;
    if (i as usize) < section.bytes.items().len() / PAGE_BYTES as usize {
        Some(Page::Shared(s, i))
    } else {
        None
    }
}

/// The owner of a block of the page file, if it lies there and is of the same process, or of the same
/// section; and whether it is in no frame.
fn following_owner<B: Block>(state: &State<B>, g: Page, n: u32) -> (Option<Page>, bool)
    ensures page { result.0 ≡ following_owner (pager state.now) g n (owner_of (pager state.now).assigned n) }
    ensures out { result.1 ≡ is_out state.now.config (pager state.now) result.0 }
{
    state.run_law();
    match state.owner(n) {
        Some(h) => {
            if is_kin(g, h) {
                let there = state.backing(h);
                if lies_in(there.lies, n) {
                    (Some(h), there.frame.is_none())
                } else {
                    (None, false)
                }
            } else {
                (None, false)
            }
        }
        None => (None, false),
    }
}

/// Whether a page of a section is in no frame.
fn is_out<B: Block>(state: &State<B>, page: Option<Page>) -> bool
    requires { (g : Page) → page ≡ Some g → IsKnown state.now.config g }
    ensures { result ≡ is_out state.now.config (pager state.now) page }
{
    match page {
        Some(g) => state.backing(g).frame.is_none(),
        None => false,
    }
}

/// The page that may follow so many places behind the faulting one, and whether it is in no frame.
fn following<B: Block>(state: &State<B>, g: Page, b: BlockId, places: u32) -> (Option<Page>, bool)
    requires page { page_place g + places < 2 ^ 32 }
    requires block { block_place b + places < 2 ^ 32 }
    ensures page { result.0 ≡ following state.now.config (pager state.now) g b places }
    ensures out { result.1 ≡ is_out state.now.config (pager state.now) result.0 }
{
    match b {
        BlockId::PageFile(n) => following_owner(state, g, n + places),
        BlockId::Section(..) => match g {
            Page::Shared(s, i) => {
                let page = following_shared(state, s, i + places);
                (page, is_out(state, page))
            }
            Page::Private(..) => (None, false),
        },
        BlockId::Swap(..) => (None, false),
    }
}

/// How many places a cluster may reach: the first read of a copy on reference page is made by itself.
fn reach<B: Block>(state: &State<B>, x: Sought) -> u32
    requires { (is_paged state.now.config x.page && not (x.backing).charged) ≡ is_uncharged state.now.config (pager state.now) x.page }
    ensures { result ≡ reach_of state.now.config (pager state.now) x.page }
{
    if is_uncharged(state.config(), x) {
        1
    } else {
        state.config().params.pfc
    }
}

/// Whether the faulting page is read alone, whatever may follow it: too few frames are free for another
/// page, or a cluster reaches no further.
pub fn is_alone<B: Block>(state: &State<B>, x: Sought) -> bool
    requires { (is_paged state.now.config x.page && not (x.backing).charged) ≡ is_uncharged state.now.config (pager state.now) x.page }
    ensures { result ≡ (nat_lt (length (pager state.now).free) 3 || nat_lt (reach_of state.now.config (pager state.now) x.page) 2) }
{
    state.free_len() < 3 || reach(state, x) < 2
}

/// Whether a next place is looked at: the page of the last one was out, and fewer places were looked at
/// than a cluster may reach.
fn goes_on(is_out: bool, places: u32, reach: u32) -> bool
    ensures { result ≡ (is_out && nat_lt places reach) }
{
    is_out && places < reach
}

/// How many pages are read together. The empty list of pages gets the faulting page and those that may
/// follow it, up to the first that isn't out.
pub fn cluster<B: Block>(
    state: &State<B>,
    x: Sought,
    b: BlockId,
    pages: &mut ArrayVec<Option<Page>, 8>,
) -> u32
    requires formed { IsWellFormed state.now.config }
    requires known { IsKnown state.now.config x.page }
    requires exists { IsBlock state.now.config b }
    requires charge { (is_paged state.now.config x.page && not (x.backing).charged) ≡ is_uncharged state.now.config (pager state.now) x.page }
    requires free { 1 ≤ length (pager state.now).free }
    requires none { pages.old.items ≡ [] }
    ensures pages { IsWindow state.now.config (pager state.now) x.page b pages.new.items }
    ensures within { result ≤ length pages.new.items }
    ensures length { result ≡ cluster_length (window state.now.config (pager state.now) x.page b)
        state.now.config.params.pfc (length (pager state.now).free) }
{
    let pfc = state.config().params.pfc;
    let reach = reach(state, x);
    let mut out = ArrayVec::<bool, 8>::new();
    pages.push(Some(x.page));
    out.push(true);
    let mut places = 1;
    let mut more = goes_on(true, places, reach);
    while more {
        let (page, here) = following(state, x.page, b, places);
        out.push(here);
        pages.push(page);
        places += 1;
        more = goes_on(here, places, reach);
    }
    choose(out.as_slice(), pfc, state.free_len())
}
