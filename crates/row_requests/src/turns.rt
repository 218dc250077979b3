//! Why an entry isn't in turn: the three rules of seats.

ghost use Rattle.std.specs.Prelude.{◌≡◌, ◌↔◌, ◌⊎◌, ◌+◌, ◌<◌, true, Some, IfSome, IsNone, length};
ghost use Rattle.pager_model.specs.Carrier.{carrying};
ghost use Rattle.pager_model.specs.Flights.{Flight as OpenFlight, awaits_reuse, begun_by, failed_flight, is_busy, open_flights, reading, writing};
ghost use Rattle.pager_model.specs.InTurn.{InTurn, MayJoin, is_flight_work, is_reuse_of};
ghost use Rattle.log_reasons.specs.SeatReasons.{FlightWorkFails, InTurnFails, JoinsFail, MayJoinFails, ReuseNextFails};

use log_reasons::Reason;
use shadow_history::{Carrying, Flight, ShadowHistory};
use vm_journal::{Entry, Role, What};
use vm_types::{BlockId, Config, Seat, is_next_block};

/// Whether a seat with an open flight may make the entry.
fn is_flight_work(what: What) -> bool
    ensures { result ≡ is_flight_work what }
{
    match what {
        What::Reuse { f: _, page: _ }
        | What::In {
            f: _,
            block: _,
            role: _,
        }
        | What::Out { f: _, block: _ }
        | What::InOk { f: _, k: _ }
        | What::OutOk { f: _, k: _ }
        | What::InFail {
            f: _,
            k: _,
            c: _,
            d: _,
        }
        | What::OutFail {
            f: _,
            k: _,
            c: _,
            d: _,
        } => true,
        _ => false,
    }
}

/// Whether the entry is the reuse, by this seat, of the frame whose read failed.
fn is_reuse_of(what: What, seat: Seat, failed: Option<Flight>) -> bool
    ensures { result ≡ is_reuse_of what seat.0 failed }
{
    match (what, failed) {
        (What::Reuse { f, page: _ }, Some(x)) => x.seat().0 == seat.0 && x.frame().0 == f.0,
        _ => false,
    }
}

/// Why a read of a block may not join a seat's carrier.
fn read_joins_fail(config: &Config, c: Carrying, block: BlockId, role: Role) -> Option<Reason>
    ensures legal { (x : OpenFlight) → x.block ≡ block → x.direction ≡ reading role → (IsNone result ↔ MayJoin config.now c x) }
    ensures said { (x : OpenFlight) → x.block ≡ block → x.direction ≡ reading role → IfSome result (MayJoinFails config.now c x) }
{
    if c.landed() != 0 {
        return Some(Reason::CarrierHasLanded(c.landed()));
    }
    let Some(last) = c.last() else {
        return Some(Reason::CarrierGoesOtherWay);
    };
    if !last.direction().is_reading() {
        return Some(Reason::CarrierGoesOtherWay);
    }
    if !is_next_block(last.block(), block) {
        return Some(Reason::NotNextBlock(last.block()));
    }
    if u64::from(config.params.pfc) <= c.begun() {
        return Some(Reason::ClusterIsFull(config.params.pfc));
    }
    match role {
        Role::Fault(_, _) => Some(Reason::FaultIsNotFirst),
        Role::Near(_) | Role::Come(_, _) => None,
    }
}

/// Why a write to a block may not join a seat's carrier.
fn write_joins_fail(config: &Config, c: Carrying, block: BlockId) -> Option<Reason>
    ensures legal { (x : OpenFlight) → x.block ≡ block → x.direction ≡ writing → (IsNone result ↔ MayJoin config.now c x) }
    ensures said { (x : OpenFlight) → x.block ≡ block → x.direction ≡ writing → IfSome result (MayJoinFails config.now c x) }
{
    if c.landed() != 0 {
        return Some(Reason::CarrierHasLanded(c.landed()));
    }
    let Some(last) = c.last() else {
        return Some(Reason::CarrierGoesOtherWay);
    };
    if last.direction().is_reading() {
        return Some(Reason::CarrierGoesOtherWay);
    }
    if !is_next_block(last.block(), block) {
        return Some(Reason::NotNextBlock(last.block()));
    }
    if u64::from(config.params.wrtcluster) <= c.begun() {
        return Some(Reason::ClusterIsFull(config.params.wrtcluster));
    }
    None
}

/// Why the flight that the entry begins, if it begins one, may not join its seat's carrier.
fn joins_fail(past: &ShadowHistory<'_>, e: Entry) -> Option<Reason>
    requires seat { (e.seat).0 < length past.now.config.procs + 2 }
    requires busy { is_busy (e.seat).0 (open_flights past.now.past) ≡ true }
    ensures legal { IsNone result ↔ ((x : OpenFlight) → begun_by (length past.now.past + 1) (e.seat).0 e.what ≡ Some x → MayJoin past.now.config (carrying (e.seat).0 past.now.past) x) }
    ensures said { IfSome result (JoinsFail past.now.config past.now.past e) }
{
    match e.what {
        What::In { f: _, block, role } => {
            read_joins_fail(past.config(), past.carrying(e.seat), block, role)
        }
        What::Out { f: _, block } => write_joins_fail(past.config(), past.carrying(e.seat), block),
        _ => None,
    }
}

/// Why the entry isn't the reuse that a failed read asks for, if the newest entry is one.
fn reuse_next_fails(past: &ShadowHistory<'_>, e: Entry) -> Option<Reason>
    ensures legal { IsNone result ↔ (awaits_reuse past.now.past ≡ true → is_reuse_of e.what (e.seat).0 (failed_flight past.now.past) ≡ true) }
    ensures said { IfSome result (ReuseNextFails past.now.past e) }
{
    let failed = past.failed();
    match failed {
        None => None,
        Some(x) => {
            if !is_reuse_of(e.what, e.seat, failed) {
                return Some(Reason::ReuseComesNext(x.seat(), x.frame()));
            }
            None
        }
    }
}

/// Why a seat with an open flight may not make the entry.
fn busy_fails(past: &ShadowHistory<'_>, e: Entry) -> Option<Reason>
    requires { (e.seat).0 < length past.now.config.procs + 2 }
    ensures legal { IsNone result ↔ ((is_busy (e.seat).0 (open_flights past.now.past) ≡ true → is_flight_work e.what ≡ true)
        × ((x : OpenFlight) → begun_by (length past.now.past + 1) (e.seat).0 e.what ≡ Some x → is_busy (e.seat).0 (open_flights past.now.past) ≡ true → MayJoin past.now.config (carrying (e.seat).0 past.now.past) x)) }
    ensures said { IfSome result (λ r. FlightWorkFails past.now.past e r ⊎ JoinsFail past.now.config past.now.past e r) }
{
    if !past.is_busy(e.seat) {
        return None;
    }
    if !is_flight_work(e.what) {
        return Some(Reason::SeatHasOpenTransfer);
    }
    joins_fail(past, e)
}

/// Why the entry isn't in turn by the rules of seats.
pub fn in_turn_fails(past: &ShadowHistory<'_>, e: Entry) -> Option<Reason>
    requires { (e.seat).0 < length past.now.config.procs + 2 }
    ensures legal { IsNone result ↔ InTurn past.now.config past.now.past e }
    ensures said { IfSome result (InTurnFails past.now.config past.now.past e) }
{
    if let Some(reason) = reuse_next_fails(past, e) {
        return Some(reason);
    }
    busy_fails(past, e)
}
