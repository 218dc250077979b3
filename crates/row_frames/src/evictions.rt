//! EVICT: why a page may not leave a working set.

ghost use Rattle.std.specs.Prelude.{◌≡◌, ◌↔◌, ◌⊎◌, ◌+◌, ◌<◌, ◌≤◌, ℕ, false, true, Some, IfSome, IsNone, IsTrue, length, slice_get};
ghost use Rattle.vm_types.specs.Ring.{Held as HeldPage, choose, filled, is_fixed};
ghost use Rattle.vm_types.specs.declared.names.Page.{Page as AnyPage};
ghost use Rattle.pager_model.specs.Evict.{IsDropped, IsEvict, IsLeavingEvict, IsRundownEvict, IsTaken, HasRoomFor, evicted_to};
ghost use Rattle.pager_model.specs.Flights.{open_flights};
ghost use Rattle.pager_model.specs.Lookups.{slot_with};
ghost use Rattle.pager_model.specs.Maps.{is_private, page_number};
ghost use Rattle.pager_model.specs.Order.{IsAnswered, IsInOrder};
ghost use Rattle.pager_model.specs.Transfers.{reads_on, writes_on};
ghost use Rattle.log_reasons.specs.EvictReasons.{DroppedFails, EvictFails, FullFails, LeavingFails, LooseFails, RundownFails, TakenFails, UnpinnedFails, VictimFails, WaitsFails, WriterFails, victim_slot};
ghost use Rattle.log_reasons.specs.RowReasons.{SeatFails, StatusFails};
ghost use Rattle.shadow_pager.specs.Shown.{shown};

use log_reasons::Reason;
use row_requests::{is_private, own_fails};
use shadow_history::ShadowHistory;
use shadow_pager::ShadowPager;
use shadow_tables::Ring;
use vm_journal::EvictWhy;
use vm_types::{Addr, BlockId, Choice, FrameState, PAGE_BYTES, Page, Pfn, Proc, ProcStatus, Seat};

/// A page that leaves a working set: which seat's entry it is, of which process and at which address the
/// page is, in which frame, why it leaves, and to which state the frame goes. Any numbers.
#[derive(Clone, Copy)]
pub struct Eviction {
    pub seat: Seat,
    pub process: Proc,
    pub at: Addr,
    pub frame: Pfn,
    pub why: EvictWhy,
    pub to: FrameState,
}

/// Where a frame goes, by how many entries share it, how many flights it has, and its modify mark.
fn evicted_to(shares: usize, flights: usize, modified: bool) -> FrameState
    ensures { result ≡ evicted_to shares flights modified }
{
    if 1 < shares {
        FrameState::Active
    } else if 0 < flights {
        FrameState::ReleasePending
    } else if modified {
        FrameState::Modified
    } else {
        FrameState::Free
    }
}

/// Why a process's page isn't valid in the frame, or that doesn't go to this state.
fn taken_fails(past: &ShadowHistory<'_>, pager: &ShadowPager, e: Eviction) -> Option<Reason>
    ensures legal { IsNone result ↔ IsTaken past.now.past (shown pager.now).pager (e.process).0 (page_number (e.at).0) (e.frame).0 e.to }
    ensures said { IfSome result (TakenFails past.now.past (shown pager.now).pager (e.process).0 (page_number (e.at).0) (e.frame).0 e.to) }
{
    let f = e.frame;
    match pager.entry(e.process, e.at.0 / PAGE_BYTES) {
        None => Some(Reason::PageNotValid),
        Some(entry) => {
            if entry.frame().0 != f.0 {
                return Some(Reason::ValidInOtherFrame(entry.frame()));
            }
            let goes = evicted_to(pager.shares(f), past.flights_on(f), pager.is_modified(f));
            if e.to != goes {
                return Some(Reason::GoesElsewhere(goes));
            }
            None
        }
    }
}

/// Why the frame may not go onto the modified list, if it goes there.
fn waits_fails(past: &ShadowHistory<'_>, pager: &ShadowPager, to: FrameState) -> Option<Reason>
    ensures legal { IsNone result ↔ HasRoomFor past.now.config (shown pager.now).pager to }
    ensures said { IfSome result (WaitsFails past.now.config (shown pager.now).pager to) }
{
    let most = past.config().params.waitlimit;
    if to == FrameState::Modified && most as usize <= pager.modified_frames() {
        return Some(Reason::ModifiedListAtWaitLimit(most));
    }
    None
}

/// Why a process's working set isn't at its limit or above.
fn full_fails(pager: &ShadowPager, p: Proc) -> Option<Reason>
    requires { p.0 < (shown pager.now).processes }
    ensures legal { IsNone result ↔ ((shown pager.now).pager.limit p.0 ≤ filled ((shown pager.now).pager.ring p.0).slots) }
    ensures said { IfSome result (FullFails (shown pager.now).pager p.0) }
{
    let count = pager.ring(p).filled();
    let limit = pager.limit_of(p);
    if count < limit {
        return Some(Reason::CountBelowLimit(count, limit));
    }
    None
}

/// The slot of the ring's victim, if there is one.
fn victim_slot(choice: Choice) -> Option<u32>
    ensures { result ≡ victim_slot choice }
{
    match choice {
        Choice::Victim(slot) => Some(slot),
        Choice::Empty(_) | Choice::AllLocked => None,
    }
}

/// Whether the ring's victim is in a slot with this page.
#[tactic(auto, using(row_requests::proofs::Slots::held_there, row_requests::proofs::Slots::none_there))]
fn is_victim(ring: &Ring, limit: u32, v: u32) -> bool
    ensures { IsTrue result ↔ ((slot : ℕ) × (held : HeldPage) × (choose ring.now limit ≡ Choice.Victim slot)
        × (slice_get ring.now.slots slot ≡ Some (Some held)) × (held.vpn ≡ v)) }
{
    match ring.choose(limit) {
        Choice::Victim(slot) => match ring.at(slot) {
            None => false,
            Some(held) => held.vpn() == v,
        },
        Choice::Empty(_) | Choice::AllLocked => false,
    }
}

/// Why the page isn't in the slot of the ring's victim.
fn victim_fails(ring: &Ring, limit: u32, v: u32) -> Option<Reason>
    ensures legal { IsNone result ↔ ((slot : ℕ) × (held : HeldPage) × (choose ring.now limit ≡ Choice.Victim slot)
        × (slice_get ring.now.slots slot ≡ Some (Some held)) × (held.vpn ≡ v)) }
    ensures said { IfSome result (VictimFails ring.now limit v) }
{
    if is_victim(ring, limit, v) {
        return None;
    }
    Some(Reason::NotTheVictim(victim_slot(ring.choose(limit))))
}

/// Why a page of the seat's own process may not be replaced.
fn replace_fails(past: &ShadowHistory<'_>, pager: &ShadowPager, e: Eviction) -> Option<Reason>
    requires { (shown pager.now).processes ≡ length past.now.config.procs }
    ensures legal { IsNone result ↔ IsEvict EvictWhy.Replace past.now.config past.now.past (shown pager.now).pager (e.seat).0 (e.process).0 (e.at).0 (e.frame).0 e.to }
    ensures said { IfSome result (EvictFails EvictWhy.Replace past.now.config past.now.past (shown pager.now).pager (e.seat).0 (e.process).0 (e.at).0 (e.frame).0 e.to) }
{
    let p = e.process;
    if let Some(reason) = seat_fails(e.seat, p) {
        return Some(reason);
    }
    if let Some(reason) = own_fails(past.config(), pager, p) {
        return Some(reason);
    }
    if let Some(reason) = full_fails(pager, p) {
        return Some(reason);
    }
    if let Some(reason) = victim_fails(pager.ring(p), pager.limit_of(p), e.at.0 / PAGE_BYTES) {
        return Some(reason);
    }
    if let Some(reason) = taken_fails(past, pager, e) {
        return Some(reason);
    }
    waits_fails(past, pager, e.to)
}

/// Why a page may not leave its slot: it is purged, and locked or pinned.
#[tactic(auto, using(row_requests::proofs::Slots::held_there, row_requests::proofs::Slots::none_there))]
fn loose_fails(ring: &Ring, v: u32, purged: bool) -> Option<Reason>
    ensures legal { IsNone result ↔ ((held : HeldPage) → slice_get ring.now.slots (slot_with ring.now v) ≡ Some (Some held) → purged ≡ true → is_fixed held ≡ false) }
    ensures said { IfSome result (LooseFails ring.now v purged) }
{
    match ring.at(ring.slot_with(v)) {
        None => None,
        Some(held) => {
            if purged && held.is_fixed() {
                return Some(Reason::PageIsFixed);
            }
            None
        }
    }
}

/// Why a page of the seat's own process may not be purged, or leave for its deletion.
fn drop_fails(
    past: &ShadowHistory<'_>,
    pager: &ShadowPager,
    e: Eviction,
    purged: bool,
) -> Option<Reason>
    requires { (shown pager.now).processes ≡ length past.now.config.procs }
    ensures legal { IsNone result ↔ (((e.process).0 ≡ (e.seat).0) × IsDropped past.now.config past.now.past (shown pager.now).pager (e.process).0 (e.at).0 (e.frame).0 purged e.to) }
    ensures said { IfSome result (λ r. SeatFails (e.seat).0 (e.process).0 r ⊎ DroppedFails past.now.config past.now.past (shown pager.now).pager (e.process).0 (e.at).0 (e.frame).0 purged e.to r) }
{
    if let Some(reason) = seat_fails(e.seat, e.process) {
        return Some(reason);
    }
    if let Some(reason) = own_fails(past.config(), pager, e.process) {
        return Some(reason);
    }
    if let Some(reason) = taken_fails(past, pager, e) {
        return Some(reason);
    }
    if let Some(reason) = loose_fails(pager.ring(e.process), e.at.0 / PAGE_BYTES, purged) {
        return Some(reason);
    }
    waits_fails(past, pager, e.to)
}

/// Whether the page in a frame, if it is private, lies in the block, unmodified and without a
/// flight.
fn is_written(past: &ShadowHistory<'_>, pager: &ShadowPager, f: Pfn, block: BlockId) -> bool
    ensures { IsTrue result ↔ ((g : AnyPage) → (shown pager.now).pager.page f.0 ≡ Some g → is_private g ≡ true
        → ((shown pager.now).pager.lies g ≡ Some block) × ((shown pager.now).pager.modify f.0 ≡ false)
        × (reads_on f.0 (open_flights past.now.past) + writes_on f.0 (open_flights past.now.past) ≡ 0)) }
{
    match pager.page(f) {
        None => true,
        Some(page) => {
            !is_private(page)
                || pager.lies(page) == Some(block)
                    && !pager.is_modified(f)
                    && past.flights_on(f) == 0
        }
    }
}

/// Why the slot of a page has it pinned.
#[tactic(auto, using(row_requests::proofs::Slots::held_there, row_requests::proofs::Slots::none_there))]
fn unpinned_fails(ring: &Ring, v: u32) -> Option<Reason>
    ensures legal { IsNone result ↔ ((held : HeldPage) → slice_get ring.now.slots (slot_with ring.now v) ≡ Some (Some held) → held.pinned ≡ false) }
    ensures said { IfSome result (UnpinnedFails ring.now v) }
{
    match ring.at(ring.slot_with(v)) {
        None => None,
        Some(held) => {
            if held.is_pinned() {
                return Some(Reason::PageIsPinned);
            }
            None
        }
    }
}

/// Why a process isn't leaving.
fn leaves_fails(pager: &ShadowPager, p: Proc) -> Option<Reason>
    ensures legal { IsNone result ↔ ((shown pager.now).pager.status p.0 ≡ ProcStatus.Leaving) }
    ensures said { IfSome result (StatusFails (shown pager.now).pager p.0 ProcStatus.Leaving) }
{
    let status = pager.status(p);
    if status != ProcStatus::Leaving {
        return Some(Reason::InOtherStatus(status));
    }
    None
}

/// Why a page of a leaving process may not leave.
fn leaving_fails(past: &ShadowHistory<'_>, pager: &ShadowPager, e: Eviction) -> Option<Reason>
    requires { (e.process).0 < (shown pager.now).processes }
    ensures legal { IsNone result ↔ IsLeavingEvict past.now.config past.now.past (shown pager.now).pager (e.process).0 (e.at).0 (e.frame).0 e.to }
    ensures said { IfSome result (LeavingFails past.now.config past.now.past (shown pager.now).pager (e.process).0 (e.at).0 (e.frame).0 e.to) }
{
    let p = e.process;
    let v = e.at.0 / PAGE_BYTES;
    let block = BlockId::Swap(p, pager.ring(p).slot_with(v));
    if let Some(reason) = leaves_fails(pager, p) {
        return Some(reason);
    }
    if let Some(reason) = unpinned_fails(pager.ring(p), v) {
        return Some(reason);
    }
    if let Some(reason) = taken_fails(past, pager, e) {
        return Some(reason);
    }
    if !is_written(past, pager, e.frame, block) {
        return Some(Reason::NotYetWritten);
    }
    waits_fails(past, pager, e.to)
}

/// Why the seat isn't the writer's after the last answer, or the page is private.
fn writer_fails(past: &ShadowHistory<'_>, pager: &ShadowPager, seat: Seat, f: Pfn) -> Option<Reason>
    requires { IsInOrder past.now.config past.now.past }
    ensures legal { IsNone result ↔ ((seat.0 ≡ length past.now.config.procs) × IsAnswered past.now.config past.now.past
        × ((g : AnyPage) → (shown pager.now).pager.page f.0 ≡ Some g → is_private g ≡ false)) }
    ensures said { IfSome result (WriterFails past.now.config past.now.past (shown pager.now).pager seat.0 f.0) }
{
    if seat.0 as usize != past.config().procs.items().len() {
        return Some(Reason::NotTheWriter);
    }
    if !past.is_answered() {
        return Some(Reason::RequestIsLeft);
    }
    match pager.page(f) {
        Some(page) if is_private(page) => Some(Reason::PageIsPrivate),
        _ => None,
    }
}

/// Why a shared page of a process may not leave in the rundown.
fn rundown_fails(past: &ShadowHistory<'_>, pager: &ShadowPager, e: Eviction) -> Option<Reason>
    requires { IsInOrder past.now.config past.now.past }
    ensures legal { IsNone result ↔ IsRundownEvict past.now.config past.now.past (shown pager.now).pager (e.seat).0 (e.process).0 (e.at).0 (e.frame).0 e.to }
    ensures said { IfSome result (RundownFails past.now.config past.now.past (shown pager.now).pager (e.seat).0 (e.process).0 (e.at).0 (e.frame).0 e.to) }
{
    if let Some(reason) = writer_fails(past, pager, e.seat, e.frame) {
        return Some(reason);
    }
    if let Some(reason) = taken_fails(past, pager, e) {
        return Some(reason);
    }
    waits_fails(past, pager, e.to)
}

/// Why a process isn't the seat's.
fn seat_fails(seat: Seat, p: Proc) -> Option<Reason>
    ensures legal { IsNone result ↔ (p.0 ≡ seat.0) }
    ensures said { IfSome result (SeatFails seat.0 p.0) }
{
    if p.0 != seat.0 {
        return Some(Reason::NotOwnProcess);
    }
    None
}

/// Why a page may not leave a working set.
pub fn evict_fails(past: &ShadowHistory<'_>, pager: &ShadowPager, e: Eviction) -> Option<Reason>
    requires processes { (shown pager.now).processes ≡ length past.now.config.procs }
    requires process { (e.process).0 < (shown pager.now).processes }
    requires order { IsInOrder past.now.config past.now.past }
    ensures legal { IsNone result ↔ IsEvict e.why past.now.config past.now.past (shown pager.now).pager (e.seat).0 (e.process).0 (e.at).0 (e.frame).0 e.to }
    ensures said { IfSome result (EvictFails e.why past.now.config past.now.past (shown pager.now).pager (e.seat).0 (e.process).0 (e.at).0 (e.frame).0 e.to) }
{
    match e.why {
        EvictWhy::Replace => replace_fails(past, pager, e),
        EvictWhy::Purge => drop_fails(past, pager, e, true),
        EvictWhy::Delete => drop_fails(past, pager, e, false),
        EvictWhy::Leave => leaving_fails(past, pager, e),
        EvictWhy::Rundown => rundown_fails(past, pager, e),
    }
}
