//! IN: why a read may not begin.

ghost use Rattle.std.specs.Prelude.{◌≡◌, ◌↔◌, ◌⊎◌, ◌+◌, ◌<◌, ℕ, true, Some, IfSome, IsNone, IsTrue, length};
ghost use Rattle.vm_types.specs.Ring.{filled};
ghost use Rattle.vm_types.specs.declared.names.Page.{Page as AnyPage};
ghost use Rattle.pager_model.specs.Carrier.{carrying};
ghost use Rattle.pager_model.specs.Flights.{Flight as OpenFlight, is_busy, open_flights};
ghost use Rattle.pager_model.specs.In.{IsFirstIn, IsIn, IsInCome, IsInFault, IsInLying, IsInNear, is_fault_or_near, is_kin};
ghost use Rattle.pager_model.specs.Lookups.{page_by, section_at};
ghost use Rattle.pager_model.specs.Maps.{page_number};
ghost use Rattle.pager_model.specs.Own.{IsEmptyHead, IsResident};
ghost use Rattle.pager_model.specs.Transfers.{IsHome};
ghost use Rattle.shadow_history.specs.Directions.{direction_of};
ghost use Rattle.log_reasons.specs.ReadReasons.{ComePageFails, FaultPageFails, FromFails, InComeFails, InFails, InFaultFails, InNearFails, LyingFails, LyingPageFails, MayReadFails, NearFails};
ghost use Rattle.shadow_pager.specs.Shown.{shown};

use crate::blocks::home_fails;
use log_reasons::Reason;
use row_requests::{empty_head_fails, is_private, own_fails, room_fails};
use shadow_history::{Direction, ShadowHistory};
use shadow_pager::ShadowPager;
use shadow_tables::Behind;
use vm_journal::Role;
use vm_types::{Addr, BlockId, Config, Origin, PAGE_BYTES, Page, Pfn, Proc, ProcStatus, Seat};

/// A read that begins: which seat's it is, into which frame, and of which block.
#[derive(Clone, Copy)]
struct Read {
    seat: Seat,
    frame: Pfn,
    block: BlockId,
}

/// The section block behind a mapped page.
fn section_at(behind: Option<Behind>) -> Option<BlockId>
    ensures { result ≡ section_at behind }
{
    match behind?.origin() {
        Origin::Zero => None,
        Origin::Section(s, i) => Some(BlockId::Section(s, i)),
    }
}

/// Whether it is the first read of a copy on reference page, which isn't charged yet.
fn is_first(
    config: &Config,
    pager: &ShadowPager,
    p: Proc,
    v: u32,
    block: BlockId,
    page: Page,
) -> bool
    ensures { IsTrue result ↔ IsFirstIn config.now (shown pager.now).pager p.0 v block page }
{
    is_private(page)
        && section_at(pager.mapping(p, v)) == Some(block)
        && pager.charges(page) == 0
        && pager.charged_pages() < config.pagefile as usize
}

/// Why a resident process with room below its limit may not have the block read into the frame.
fn may_read_fails(past: &ShadowHistory<'_>, pager: &ShadowPager, read: Read) -> Option<Reason>
    requires { (shown pager.now).processes ≡ length past.now.config.procs }
    ensures legal { IsNone result ↔ (IsResident past.now.config (shown pager.now).pager (read.seat).0 × IsHome past.now.config read.block (open_flights past.now.past)
        × IsEmptyHead (shown pager.now).pager (read.frame).0 × (filled ((shown pager.now).pager.ring (read.seat).0).slots < (shown pager.now).pager.limit (read.seat).0)) }
    ensures said { IfSome result (MayReadFails past.now.config past.now.past (shown pager.now).pager (read.seat).0 (read.frame).0 read.block) }
{
    let p = Proc(read.seat.0);
    if let Some(reason) = own_fails(past.config(), pager, p) {
        return Some(reason);
    }
    if let Some(reason) = home_fails(past, read.block) {
        return Some(reason);
    }
    if let Some(reason) = empty_head_fails(pager, read.frame) {
        return Some(reason);
    }
    room_fails(pager, p)
}

/// Why a page isn't out, or is read neither from the block in which it lies nor for the first time.
fn from_fails(
    past: &ShadowHistory<'_>,
    pager: &ShadowPager,
    p: Proc,
    v: u32,
    block: BlockId,
    page: Page,
) -> Option<Reason>
    ensures legal { IsNone result ↔ (((g : ℕ) → (shown pager.now).pager.page g ≡ Some page → ⊥)
        × (((shown pager.now).pager.lies page ≡ Some block) ⊎ IsFirstIn past.now.config (shown pager.now).pager p.0 v block page)) }
    ensures said { IfSome result (FromFails past.now.config (shown pager.now).pager p.0 v block page) }
{
    if !pager.is_out(page) {
        return Some(Reason::PageInMemory);
    }
    if pager.lies(page) == Some(block) || is_first(past.config(), pager, p, v, block, page) {
        return None;
    }
    Some(Reason::LiesElsewhere(pager.lies(page)))
}

/// Why a read of this page for a fault may not begin.
fn fault_page_fails(
    past: &ShadowHistory<'_>,
    pager: &ShadowPager,
    read: Read,
    q: Proc,
    a: Addr,
    page: Page,
) -> Option<Reason>
    requires { (shown pager.now).processes ≡ length past.now.config.procs }
    ensures legal { IsNone result ↔ ((q.0 ≡ (read.seat).0)
        × (IsResident past.now.config (shown pager.now).pager (read.seat).0 × IsHome past.now.config read.block (open_flights past.now.past)
        × IsEmptyHead (shown pager.now).pager (read.frame).0 × (filled ((shown pager.now).pager.ring (read.seat).0).slots < (shown pager.now).pager.limit (read.seat).0))
        × ((g : ℕ) → (shown pager.now).pager.page g ≡ Some page → ⊥)
        × (((shown pager.now).pager.lies page ≡ Some read.block) ⊎ IsFirstIn past.now.config (shown pager.now).pager (read.seat).0 (page_number a.0) read.block page)) }
    ensures said { IfSome result (FaultPageFails past.now.config past.now.past (shown pager.now).pager (read.seat).0 (read.frame).0 read.block q.0 a.0 page) }
{
    if q.0 != read.seat.0 {
        return Some(Reason::NotOwnProcess);
    }
    if let Some(reason) = may_read_fails(past, pager, read) {
        return Some(reason);
    }
    from_fails(
        past,
        pager,
        Proc(read.seat.0),
        a.0 / PAGE_BYTES,
        read.block,
        page,
    )
}

/// The page that a process has at a page number.
fn page_of(past: &ShadowHistory<'_>, pager: &ShadowPager, p: Proc, v: u32) -> Option<Page>
    ensures { result ≡ page_by past.now.config (shown pager.now).pager.map p.0 v }
{
    pager.page_of(past.config(), p, v)
}

/// Why a read for a fault may not begin.
fn in_fault_fails(
    past: &ShadowHistory<'_>,
    pager: &ShadowPager,
    read: Read,
    q: Proc,
    a: Addr,
) -> Option<Reason>
    requires { (shown pager.now).processes ≡ length past.now.config.procs }
    ensures legal { IsNone result ↔ IsInFault past.now.config past.now.past (shown pager.now).pager (read.seat).0 (read.frame).0 read.block q.0 a.0 }
    ensures said { IfSome result (InFaultFails past.now.config past.now.past (shown pager.now).pager (read.seat).0 (read.frame).0 read.block q.0 a.0) }
{
    match page_of(past, pager, Proc(read.seat.0), a.0 / PAGE_BYTES) {
        None => Some(Reason::NotMapped),
        Some(page) => fault_page_fails(past, pager, read, q, a, page),
    }
}

/// Why a page isn't out, or doesn't lie in the block.
fn lying_page_fails(pager: &ShadowPager, block: BlockId, page: Page) -> Option<Reason>
    ensures legal { IsNone result ↔ (((g : ℕ) → (shown pager.now).pager.page g ≡ Some page → ⊥) × ((shown pager.now).pager.lies page ≡ Some block)) }
    ensures said { IfSome result (LyingPageFails (shown pager.now).pager block page) }
{
    if !pager.is_out(page) {
        return Some(Reason::PageInMemory);
    }
    let lies = pager.lies(page);
    if lies != Some(block) {
        return Some(Reason::LiesElsewhere(lies));
    }
    None
}

/// Why a read of a page from the block may not begin.
fn lying_fails(
    past: &ShadowHistory<'_>,
    pager: &ShadowPager,
    read: Read,
    page: Page,
) -> Option<Reason>
    ensures legal { IsNone result ↔ IsInLying past.now.config past.now.past (shown pager.now).pager (read.frame).0 read.block page }
    ensures said { IfSome result (LyingFails past.now.config past.now.past (shown pager.now).pager (read.frame).0 read.block page) }
{
    if let Some(reason) = home_fails(past, read.block) {
        return Some(reason);
    }
    if let Some(reason) = empty_head_fails(pager, read.frame) {
        return Some(reason);
    }
    lying_page_fails(pager, read.block, page)
}

/// Whether the way is that of a read for a fault, or of a neighbour.
fn is_fault_or_near(direction: Direction) -> bool
    ensures { result ≡ is_fault_or_near (direction_of direction) }
{
    match direction {
        Direction::Reading(Role::Fault(_, _)) | Direction::Reading(Role::Near(_)) => true,
        Direction::Reading(Role::Come(_, _)) | Direction::Writing => false,
    }
}

/// Whether both pages are private to one process, or of one section.
fn is_kin(one: Page, other: Page) -> bool
    ensures { result ≡ is_kin one other }
{
    match (one, other) {
        (Page::Private(p, _), Page::Private(q, _)) => p.0 == q.0,
        (Page::Shared(s, _), Page::Shared(t, _)) => s.0 == t.0,
        (Page::Private(_, _), Page::Shared(_, _)) | (Page::Shared(_, _), Page::Private(_, _)) =>
            false,
    }
}

/// Whether the frame holds a page of the same kin.
fn holds_kin(pager: &ShadowPager, f: Pfn, page: Page) -> bool
    ensures { IsTrue result ↔ ((before : AnyPage) × ((shown pager.now).pager.page f.0 ≡ Some before) × (is_kin before page ≡ true)) }
{
    match pager.page(f) {
        None => false,
        Some(before) => is_kin(before, page),
    }
}

/// Why a page isn't a neighbour of the seat's last flight: that is no open read for a fault or a
/// neighbour, or of no page of its kin.
fn near_fails(
    past: &ShadowHistory<'_>,
    pager: &ShadowPager,
    seat: Seat,
    page: Page,
) -> Option<Reason>
    requires { seat.0 < length past.now.config.procs + 2 }
    ensures legal { IsNone result ↔ ((last : OpenFlight) × ((carrying seat.0 past.now.past).last ≡ Some last) × (is_busy seat.0 (open_flights past.now.past) ≡ true) × (is_fault_or_near last.direction ≡ true)
        × ((before : AnyPage) × ((shown pager.now).pager.page last.frame ≡ Some before) × (is_kin before page ≡ true))) }
    ensures said { IfSome result (NearFails past.now.past (shown pager.now).pager seat.0 page) }
{
    match past.carrying(seat).last() {
        None => Some(Reason::NoReadToFollow),
        Some(last) => {
            if !past.is_busy(seat) || !is_fault_or_near(last.direction()) {
                return Some(Reason::NoReadToFollow);
            }
            if !holds_kin(pager, last.frame(), page) {
                return Some(Reason::NotKin);
            }
            None
        }
    }
}

/// Why a read of a neighbour may not begin.
fn in_near_fails(
    past: &ShadowHistory<'_>,
    pager: &ShadowPager,
    read: Read,
    page: Page,
) -> Option<Reason>
    requires { (read.seat).0 < length past.now.config.procs + 2 }
    ensures legal { IsNone result ↔ IsInNear past.now.config past.now.past (shown pager.now).pager (read.seat).0 (read.frame).0 read.block page }
    ensures said { IfSome result (InNearFails past.now.config past.now.past (shown pager.now).pager (read.seat).0 (read.frame).0 read.block page) }
{
    if let Some(reason) = near_fails(past, pager, read.seat, page) {
        return Some(reason);
    }
    lying_fails(past, pager, read, page)
}

/// Whether the block is a swap block of the process.
fn is_swap_block(block: BlockId, p: Proc) -> bool
    ensures { IsTrue result ↔ ((n : ℕ) × (block ≡ BlockId.Swap p n)) }
{
    match block {
        BlockId::Swap(q, _) => q.0 == p.0,
        BlockId::Section(_, _) | BlockId::PageFile(_) => false,
    }
}

/// Why a read for this page of a coming process may not begin.
fn come_page_fails(
    past: &ShadowHistory<'_>,
    pager: &ShadowPager,
    read: Read,
    q: Proc,
    page: Page,
) -> Option<Reason>
    ensures legal { IsNone result ↔ (((shown pager.now).pager.status q.0 ≡ ProcStatus.Coming) × ((n : ℕ) × (read.block ≡ BlockId.Swap q n))
        × IsInLying past.now.config past.now.past (shown pager.now).pager (read.frame).0 read.block page) }
    ensures said { IfSome result (ComePageFails past.now.config past.now.past (shown pager.now).pager (read.frame).0 read.block q page) }
{
    let status = pager.status(q);
    if status != ProcStatus::Coming {
        return Some(Reason::InOtherStatus(status));
    }
    if !is_swap_block(read.block, q) {
        return Some(Reason::NotItsSwapBlock);
    }
    lying_fails(past, pager, read, page)
}

/// Why a read for a page of a coming process may not begin.
fn in_come_fails(
    past: &ShadowHistory<'_>,
    pager: &ShadowPager,
    read: Read,
    q: Proc,
    a: Addr,
) -> Option<Reason>
    ensures legal { IsNone result ↔ IsInCome past.now.config past.now.past (shown pager.now).pager (read.frame).0 read.block q a.0 }
    ensures said { IfSome result (InComeFails past.now.config past.now.past (shown pager.now).pager (read.frame).0 read.block q a.0) }
{
    match page_of(past, pager, q, a.0 / PAGE_BYTES) {
        None => Some(Reason::NotMapped),
        Some(page) => come_page_fails(past, pager, read, q, page),
    }
}

/// Why a read may not begin.
pub fn in_fails(
    past: &ShadowHistory<'_>,
    pager: &ShadowPager,
    seat: Seat,
    f: Pfn,
    block: BlockId,
    role: Role,
) -> Option<Reason>
    requires processes { (shown pager.now).processes ≡ length past.now.config.procs }
    requires seat { seat.0 < length past.now.config.procs + 2 }
    ensures legal { IsNone result ↔ IsIn role past.now.config past.now.past (shown pager.now).pager seat.0 f.0 block }
    ensures said { IfSome result (InFails role past.now.config past.now.past (shown pager.now).pager seat.0 f.0 block) }
{
    let read = Read {
        seat,
        frame: f,
        block,
    };
    match role {
        Role::Fault(q, a) => in_fault_fails(past, pager, read, q, a),
        Role::Near(page) => in_near_fails(past, pager, read, page),
        Role::Come(q, a) => in_come_fails(past, pager, read, q, a),
    }
}
