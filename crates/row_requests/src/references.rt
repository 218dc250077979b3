//! DONE and DENIED: why a reference isn't answered, or isn't refused.

ghost use Rattle.std.specs.Prelude.{◌≡◌, ◌↔◌, ◌⊎◌, ◌+◌, ◌*◌, ◌<◌, false, Some, IfSome, IsNone, IsTrue, length};
ghost use Rattle.vm_types.specs.declared.limits.TheConstants.{PAGE_BYTES};
ghost use Rattle.vm_types.specs.declared.names.Page.{Page as AnyPage};
ghost use Rattle.vm_types.specs.declared.names.Addr.{Addr as AnyAddress};
ghost use Rattle.vm_types.specs.declared.names.Proc.{Proc as AnyProc};
ghost use Rattle.shadow_history.specs.Directions.{direction_of};
ghost use Rattle.pager_model.specs.Carrier.{HasLost, carrying};
ghost use Rattle.pager_model.specs.Denied.{IsDenial, IsDenied, IsDeniedFault, IsFlatWhy};
ghost use Rattle.pager_model.specs.Done.{Allows, IsDone};
ghost use Rattle.pager_model.specs.Flat.{flat_refusal};
ghost use Rattle.pager_model.specs.Flights.{Flight as OpenFlight, reading};
ghost use Rattle.pager_model.specs.Lookups.{entries_at, entry_of, is_pending, page_by};
ghost use Rattle.pager_model.specs.Maps.{Mapped, page_number};
ghost use Rattle.pager_model.specs.OfConfig.{MapsRight};
ghost use Rattle.pager_model.specs.Pager.{Valid};
ghost use Rattle.pager_model.specs.Spoken.{flat_after};
ghost use Rattle.log_reasons.specs.DeniedReasons.{DeniedFails, DeniedFaultFails, FlatDeniedFails, LostFails, LostForFails, RoleForFails, WaitsForFails, WayForFails};
ghost use Rattle.log_reasons.specs.ProcessReasons.{AnsweredFails, DoneFails};
ghost use Rattle.shadow_pager.specs.Shown.{shown};
ghost use Rattle.row_requests.specs.FollowsFlat.{FollowsFlat};

use crate::own::own_fails;
use crate::processes::is_pending;
use crate::refusals::{is_allowed, refusal};
use log_reasons::Reason;
use shadow_history::{Direction, ShadowHistory};
use shadow_pager::ShadowPager;
use shadow_tables::Behind;
use vm_journal::Role;
use vm_types::{Addr, Config, PAGE_BYTES, Proc, ProcStatus, Ref, Seat, Why};

/// Whether a page is mapped to what allows the reference.
fn allows(behind: Option<Behind>, r: Ref) -> bool
    requires { (m : Mapped) → behind ≡ Some m → m.prot < 16 }
    ensures { IsTrue result ↔ Allows behind r }
{
    match behind {
        None => false,
        Some(behind) => is_allowed(behind, r),
    }
}

/// Whether a process has a valid entry for a page.
fn is_valid(pager: &ShadowPager, p: Proc, v: u32) -> bool
    ensures { IsTrue result ↔ ((e : Valid) × (entry_of (shown pager.now).pager.valid p.0 v ≡ Some e)) }
{
    match pager.entry(p, v) {
        None => false,
        Some(_) => true,
    }
}

/// Why a reference of a resident process isn't answered.
fn answered_fails(config: &Config, pager: &ShadowPager, p: Proc, r: Ref) -> Option<Reason>
    requires { MapsRight config.now (shown pager.now).pager.map }
    ensures legal { IsNone result ↔ ((is_pending config.now ((shown pager.now).pager.references p.0) ≡ false) × Allows ((shown pager.now).pager.map p.0 (page_number (r.addr).0)) r
        × ((e : Valid) × (entry_of (shown pager.now).pager.valid p.0 (page_number (r.addr).0) ≡ Some e))) }
    ensures said { IfSome result (AnsweredFails config.now (shown pager.now).pager p.0 r) }
{
    let v = r.addr.0 / PAGE_BYTES;
    let references = pager.references(p);
    if is_pending(config, references) {
        return Some(Reason::AdjustmentIsPending(references));
    }
    let behind = pager.mapping(p, v);
    if behind.is_none() {
        return Some(Reason::NotMapped);
    }
    if !allows(behind, r) {
        return Some(Reason::NotAllowed);
    }
    if !is_valid(pager, p, v) {
        return Some(Reason::PageNotValid);
    }
    None
}

/// Why a reference is not answered.
pub fn done_fails(config: &Config, pager: &ShadowPager, seat: Seat, r: Ref) -> Option<Reason>
    requires { MapsRight config.now (shown pager.now).pager.map }
    ensures legal { IsNone result ↔ IsDone config.now (shown pager.now).pager seat.0 r }
    ensures said { IfSome result (DoneFails config.now (shown pager.now).pager seat.0 r) }
{
    let p = Proc(seat.0);
    if let Some(reason) = own_fails(config, pager, p) {
        return Some(reason);
    }
    answered_fails(config, pager, p, r)
}

/// Why the flat machine after these entries refuses a reference, if it does.
fn flat_refusal_of(past: &ShadowHistory<'_>, pager: &ShadowPager, p: Proc, r: Ref) -> Option<Why>
    requires { FollowsFlat past.now.config past.now.past (shown pager.now).pager }
    ensures { result ≡ flat_refusal past.now.config (flat_after past.now.config past.now.past) p.0 r }
{
    refusal(past.config(), pager, p, r)
}

/// Why a reference of a process isn't refused for the flat machine's reason.
fn refused_fails(
    past: &ShadowHistory<'_>,
    pager: &ShadowPager,
    p: Proc,
    r: Ref,
    why: Why,
) -> Option<Reason>
    requires flat { FollowsFlat past.now.config past.now.past (shown pager.now).pager }
    requires why { IsFlatWhy why }
    ensures legal { IsNone result ↔ IsDenied past.now.config past.now.past (shown pager.now).pager p.0 r why }
    ensures said { IfSome result (FlatDeniedFails past.now.config past.now.past (shown pager.now).pager p.0 r why) }
{
    if let Some(reason) = own_fails(past.config(), pager, p) {
        return Some(reason);
    }
    let references = pager.references(p);
    if is_pending(past.config(), references) {
        return Some(Reason::AdjustmentIsPending(references));
    }
    let right = flat_refusal_of(past, pager, p, r);
    if right != Some(why) {
        return Some(Reason::RefusedOtherwise(right));
    }
    None
}

/// Whether an address is the first one of the page of another.
fn is_page_of(at: Addr, a: Addr) -> bool
    ensures { IsTrue result ↔ (at.0 ≡ page_number a.0 * PAGE_BYTES) }
{
    at.0 == a.0 / PAGE_BYTES * PAGE_BYTES
}

/// Why the role, which is that of a read for a fault, isn't of the page of this address.
fn role_for_fails(role: Role, a: Addr) -> Option<Reason>
    ensures legal { IsNone result ↔ ((q : AnyProc) (at : AnyAddress) → role ≡ Role.Fault q at → at.0 ≡ page_number a.0 * PAGE_BYTES) }
    ensures said { IfSome result (RoleForFails role a.0) }
{
    match role {
        Role::Fault(_, at) => {
            if !is_page_of(at, a) {
                return Some(Reason::LostOtherPage(at));
            }
            None
        }
        Role::Near(_) => None,
        Role::Come(_, _) => None,
    }
}

/// Why the way, which is that of a read for a fault, isn't of the page of this address.
fn way_for_fails(direction: Direction, a: Addr) -> Option<Reason>
    ensures legal { IsNone result ↔ ((q : AnyProc) (at : AnyAddress) → direction_of direction ≡ reading (Role.Fault q at) → at.0 ≡ page_number a.0 * PAGE_BYTES) }
    ensures said { IfSome result (WayForFails (direction_of direction) a.0) }
{
    match direction {
        Direction::Reading(role) => role_for_fails(role, a),
        Direction::Writing => None,
    }
}

/// Why the first read of a seat's last carrier, which was for a fault, wasn't for the page of this address.
fn lost_for_fails(past: &ShadowHistory<'_>, seat: Seat, a: Addr) -> Option<Reason>
    requires { seat.0 < length past.now.config.procs + 2 }
    ensures legal { IsNone result ↔ ((x : OpenFlight) (q : AnyProc) (at : AnyAddress) → (carrying seat.0 past.now.past).first ≡ Some x
        → x.direction ≡ reading (Role.Fault q at) → at.0 ≡ page_number a.0 * PAGE_BYTES) }
    ensures said { IfSome result (LostForFails past.now.past seat.0 a.0) }
{
    match past.carrying(seat).first() {
        None => None,
        Some(x) => way_for_fails(x.direction(), a),
    }
}

/// Why a process's last carrier isn't lost.
fn lost_fails(past: &ShadowHistory<'_>, seat: Seat) -> Option<Reason>
    ensures legal { IsNone result ↔ ((seat.0 < length past.now.config.procs) × HasLost past.now.past seat.0) }
    ensures said { IfSome result (LostFails past.now.config past.now.past seat.0) }
{
    let processes = past.config().procs.items().len();
    if processes <= seat.0 as usize {
        return Some(Reason::NoSuchProcess(processes));
    }
    if !past.has_lost(seat) {
        return Some(Reason::CarrierNotLost);
    }
    None
}

/// Why a resident process doesn't wait for the page: it isn't mapped, or is valid.
fn waits_for_fails(config: &Config, pager: &ShadowPager, p: Proc, v: u32) -> Option<Reason>
    ensures legal { IsNone result ↔ (((shown pager.now).pager.status p.0 ≡ ProcStatus.Resident → ⊥)
        ⊎ ((g : AnyPage) × (page_by config.now (shown pager.now).pager.map p.0 v ≡ Some g) × (entries_at (shown pager.now).pager.valid p.0 v ≡ 0))) }
    ensures said { IfSome result (WaitsForFails config.now (shown pager.now).pager p.0 v) }
{
    if pager.status(p) != ProcStatus::Resident {
        return None;
    }
    match pager.page_of(config, p, v) {
        None => Some(Reason::NotMapped),
        Some(_) => {
            if pager.entries(p, v) != 0 {
                return Some(Reason::PageIsValid);
            }
            None
        }
    }
}

/// Why a reference isn't refused for a lost carrier.
fn denied_fault_fails(
    past: &ShadowHistory<'_>,
    pager: &ShadowPager,
    seat: Seat,
    r: Ref,
) -> Option<Reason>
    ensures legal { IsNone result ↔ IsDeniedFault past.now.config past.now.past (shown pager.now).pager seat.0 r Why.DiskFault }
    ensures said { IfSome result (DeniedFaultFails past.now.config past.now.past (shown pager.now).pager seat.0 r) }
{
    if let Some(reason) = lost_fails(past, seat) {
        return Some(reason);
    }
    if let Some(reason) = lost_for_fails(past, seat, r.addr) {
        return Some(reason);
    }
    waits_for_fails(past.config(), pager, Proc(seat.0), r.addr.0 / PAGE_BYTES)
}

/// Why a reference isn't refused.
pub fn denied_fails(
    past: &ShadowHistory<'_>,
    pager: &ShadowPager,
    seat: Seat,
    r: Ref,
    why: Why,
) -> Option<Reason>
    requires { FollowsFlat past.now.config past.now.past (shown pager.now).pager }
    ensures legal { IsNone result ↔ IsDenial past.now.config past.now.past (shown pager.now).pager seat.0 r why }
    ensures said { IfSome result (DeniedFails why past.now.config past.now.past (shown pager.now).pager seat.0 r) }
{
    let p = Proc(seat.0);
    match why {
        Why::DiskFault => denied_fault_fails(past, pager, seat, r),
        Why::Unmapped => refused_fails(past, pager, p, r, Why::Unmapped),
        Why::Protected => refused_fails(past, pager, p, r, Why::Protected),
        Why::PageFileFull => refused_fails(past, pager, p, r, Why::PageFileFull),
    }
}
