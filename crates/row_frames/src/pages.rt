//! REUSE, ZERO and BACK: why a frame may not give up its page, get a page of zeros, or keep its page, which
//! comes back.

ghost use Rattle.std.specs.Prelude.{◌≡◌, ◌↔◌, ◌<◌, ℕ, Some, IfSome, IsNone, IsTrue, length};
ghost use Rattle.pager_model.specs.Back.{IsAnyBack, IsBack, IsBackComing, may_come_back};
ghost use Rattle.pager_model.specs.Flights.{Flight, failed_flight};
ghost use Rattle.pager_model.specs.Lookups.{count_page, entries_at, page_by};
ghost use Rattle.pager_model.specs.Maps.{page_number, proc};
ghost use Rattle.pager_model.specs.Reuse.{IsReuse};
ghost use Rattle.pager_model.specs.Zero.{IsDemandZero, IsZero, is_zero_origin, zeroed_page};
ghost use Rattle.vm_types.specs.declared.names.BlockId.{BlockId as Block};
ghost use Rattle.vm_types.specs.declared.names.Page.{Page as AnyPage};
ghost use Rattle.log_reasons.specs.RowReasons.{BackFails, ComingBackFails, ResidentBackFails, ReuseFails, StayFails, SwappedFails, ZeroFails, ZerosFail};
ghost use Rattle.shadow_pager.specs.Shown.{shown};

use crate::holding::held_fails;
use log_reasons::Reason;
use row_requests::{empty_head_fails, own_fails, room_fails};
use shadow_history::ShadowHistory;
use shadow_pager::ShadowPager;
use shadow_tables::{Behind, is_paged};
use vm_types::{
    Addr, BlockId, Config, FrameState, Origin, PAGE_BYTES, Page, Pfn, Proc, ProcStatus, Seat,
};

/// A page that comes back: of which process and at which address it is, and its frame and that one's state.
#[derive(Clone, Copy)]
struct Back {
    process: Proc,
    at: Addr,
    frame: Pfn,
    from: FrameState,
}

/// Whether it is the frame of this seat's read, which has just failed.
fn has_failed(past: &ShadowHistory<'_>, seat: Seat, f: Pfn) -> bool
    ensures { IsTrue result ↔ ((x : Flight) × (failed_flight past.now.past ≡ Some x) × (x.seat ≡ seat.0) × (x.frame ≡ f.0)) }
{
    match past.failed() {
        None => false,
        Some(x) => x.seat().0 == seat.0 && x.frame().0 == f.0,
    }
}

/// Why a frame may not give up the page.
pub fn reuse_fails(
    past: &ShadowHistory<'_>,
    pager: &ShadowPager,
    seat: Seat,
    f: Pfn,
    page: Page,
) -> Option<Reason>
    ensures legal { IsNone result ↔ IsReuse past.now.past (shown pager.now).pager seat.0 f.0 page }
    ensures said { IfSome result (ReuseFails (shown pager.now).pager f.0 page) }
{
    let held = pager.page(f);
    if held != Some(page) {
        return Some(Reason::HoldsOtherPage(held));
    }
    if has_failed(past, seat, f) || pager.heads_free(f) {
        return None;
    }
    Some(Reason::NotAtFreeHead(pager.free_head()))
}

/// Whether a page over this is made of zeros at first: a demand zero page, or one of a section in the
/// page file.
fn is_zero_origin(config: &Config, origin: Origin) -> bool
    ensures { result ≡ is_zero_origin config.now origin }
{
    match origin {
        Origin::Zero => true,
        Origin::Section(s, i) => is_paged(config, Page::Shared(s, i)),
    }
}

/// Whether zeros are behind a page.
fn is_demand_zero(config: &Config, behind: Option<Behind>) -> bool
    ensures { IsTrue result ↔ IsDemandZero config.now behind }
{
    match behind {
        None => false,
        Some(behind) => is_zero_origin(config, behind.origin()),
    }
}

/// Whether the page that is made of zeros there isn't charged.
fn is_uncharged(config: &Config, pager: &ShadowPager, p: Proc, v: u32) -> bool
    ensures { IsTrue result ↔ (count_page (shown pager.now).pager.charged (zeroed_page config.now p.0 v ((shown pager.now).pager.map p.0 v)) ≡ 0) }
{
    pager.charges(pager.zeroed_page(config, p, v)) == 0
}

/// Why a page of zeros may not be made there.
fn zeros_fail(config: &Config, pager: &ShadowPager, p: Proc, v: u32) -> Option<Reason>
    ensures legal { IsNone result ↔ (IsDemandZero config.now ((shown pager.now).pager.map p.0 v)
        × (count_page (shown pager.now).pager.charged (zeroed_page config.now p.0 v ((shown pager.now).pager.map p.0 v)) ≡ 0)
        × (length (shown pager.now).pager.charged < config.now.pagefile)) }
    ensures said { IfSome result (ZerosFail config.now (shown pager.now).pager p.0 v) }
{
    if !is_demand_zero(config, pager.mapping(p, v)) {
        return Some(Reason::NotZeros);
    }
    if !is_uncharged(config, pager, p, v) {
        return Some(Reason::PageIsCharged);
    }
    if config.pagefile as usize <= pager.charged_pages() {
        return Some(Reason::NoBlockIsLeft(config.pagefile));
    }
    None
}

/// Why a page of zeros of a seat's process may not get the frame.
pub fn zero_fails(
    config: &Config,
    pager: &ShadowPager,
    seat: Seat,
    a: Addr,
    f: Pfn,
) -> Option<Reason>
    requires { (shown pager.now).processes ≡ length config.now.procs }
    ensures legal { IsNone result ↔ IsZero config.now (shown pager.now).pager seat.0 a.0 f.0 }
    ensures said { IfSome result (ZeroFails config.now (shown pager.now).pager seat.0 a.0 f.0) }
{
    let p = Proc(seat.0);
    if let Some(reason) = own_fails(config, pager, p) {
        return Some(reason);
    }
    if let Some(reason) = zeros_fail(config, pager, p, a.0 / PAGE_BYTES) {
        return Some(reason);
    }
    if let Some(reason) = room_fails(pager, p) {
        return Some(reason);
    }
    empty_head_fails(pager, f)
}

/// Whether a page in a frame of this state may come back.
fn may_come_back(from: FrameState) -> bool
    ensures { result ≡ may_come_back from }
{
    match from {
        FrameState::Bad | FrameState::Reading | FrameState::ReadError => false,
        FrameState::Free
        | FrameState::Modified
        | FrameState::ReleasePending
        | FrameState::Writing
        | FrameState::Active => true,
    }
}

/// Why a page isn't in a frame of this state, or is valid.
fn stay_fails(config: &Config, pager: &ShadowPager, back: Back) -> Option<Reason>
    ensures legal { IsNone result ↔ ((page : AnyPage) × (page_by config.now (shown pager.now).pager.map (back.process).0 (page_number (back.at).0) ≡ Some page) × ((shown pager.now).pager.page (back.frame).0 ≡ Some page)
        × (entries_at (shown pager.now).pager.valid (back.process).0 (page_number (back.at).0) ≡ 0) × ((shown pager.now).pager.state (back.frame).0 ≡ back.from)) }
    ensures said { IfSome result (StayFails config.now (shown pager.now).pager (back.process).0 (page_number (back.at).0) (back.frame).0 back.from) }
{
    let v = back.at.0 / PAGE_BYTES;
    if let Some(reason) = held_fails(config, pager, back.process, v, back.frame) {
        return Some(reason);
    }
    if pager.entries(back.process, v) != 0 {
        return Some(Reason::PageIsValid);
    }
    let state = pager.state(back.frame);
    if state != back.from {
        return Some(Reason::InOtherState(state));
    }
    None
}

/// Why a page of a resident process may not come back.
fn back_resident_fails(config: &Config, pager: &ShadowPager, back: Back) -> Option<Reason>
    requires { (shown pager.now).processes ≡ length config.now.procs }
    ensures legal { IsNone result ↔ IsBack config.now (shown pager.now).pager (back.process).0 (back.at).0 (back.frame).0 back.from }
    ensures said { IfSome result (ResidentBackFails config.now (shown pager.now).pager (back.process).0 (back.at).0 (back.frame).0 back.from) }
{
    if let Some(reason) = own_fails(config, pager, back.process) {
        return Some(reason);
    }
    if let Some(reason) = stay_fails(config, pager, back) {
        return Some(reason);
    }
    if !may_come_back(back.from) {
        return Some(Reason::MayNotComeBack);
    }
    room_fails(pager, back.process)
}

/// Whether the block is a swap block of the process.
fn is_swap_of(block: Option<BlockId>, p: Proc) -> bool
    ensures { IsTrue result ↔ ((n : ℕ) × (block ≡ Some (Block.Swap (proc p.0) n))) }
{
    match block {
        Some(BlockId::Swap(q, _)) => q.0 == p.0,
        Some(BlockId::Section(_, _) | BlockId::PageFile(_)) | None => false,
    }
}

/// Why a page doesn't come from the free list, or doesn't lie in a swap block of the process.
fn swapped_fails(config: &Config, pager: &ShadowPager, back: Back) -> Option<Reason>
    requires { (page : AnyPage) × (page_by config.now (shown pager.now).pager.map (back.process).0 (page_number (back.at).0) ≡ Some page) }
    ensures legal { IsNone result ↔ ((back.from ≡ FrameState.Free) × ((page : AnyPage) × (n : ℕ) × (page_by config.now (shown pager.now).pager.map (back.process).0 (page_number (back.at).0) ≡ Some page)
        × ((shown pager.now).pager.lies page ≡ Some (Block.Swap (proc (back.process).0) n)))) }
    ensures said { IfSome result (SwappedFails config.now (shown pager.now).pager (back.process).0 (page_number (back.at).0) back.from) }
{
    if back.from != FrameState::Free {
        return Some(Reason::NotFromFree);
    }
    match pager.page_of(config, back.process, back.at.0 / PAGE_BYTES) {
        None => None,
        Some(page) => {
            let lies = pager.lies(page);
            if !is_swap_of(lies, back.process) {
                return Some(Reason::LiesElsewhere(lies));
            }
            None
        }
    }
}

/// Why a page of a coming process may not come back.
fn back_coming_fails(config: &Config, pager: &ShadowPager, back: Back) -> Option<Reason>
    requires { (shown pager.now).pager.status (back.process).0 ≡ ProcStatus.Coming }
    ensures legal { IsNone result ↔ IsBackComing config.now (shown pager.now).pager (back.process).0 (back.at).0 (back.frame).0 back.from }
    ensures said { IfSome result (ComingBackFails config.now (shown pager.now).pager (back.process).0 (back.at).0 (back.frame).0 back.from) }
{
    if let Some(reason) = stay_fails(config, pager, back) {
        return Some(reason);
    }
    swapped_fails(config, pager, back)
}

/// Why a page that is still in a frame may not come back to a process.
pub fn back_fails(
    config: &Config,
    pager: &ShadowPager,
    seat: Seat,
    p: Proc,
    a: Addr,
    f: Pfn,
    from: FrameState,
) -> Option<Reason>
    requires { (shown pager.now).processes ≡ length config.now.procs }
    ensures legal { IsNone result ↔ IsAnyBack config.now (shown pager.now).pager seat.0 p.0 a.0 f.0 from }
    ensures said { IfSome result (BackFails config.now (shown pager.now).pager seat.0 p.0 a.0 f.0 from) }
{
    let back = Back {
        process: p,
        at: a,
        frame: f,
        from,
    };
    if pager.status(p) == ProcStatus::Coming {
        return back_coming_fails(config, pager, back);
    }
    if p.0 != seat.0 {
        return Some(Reason::NotOwnProcess);
    }
    back_resident_fails(config, pager, back)
}
