//! COLLIDE: why a fault on a page may not meet a read of it by another seat.

ghost use Rattle.std.specs.Prelude.{◌≡◌, ◌↔◌, true, Some, IfSome, IsNone, find};
ghost use Rattle.vm_types.specs.declared.names.Page.{Page as AnyPage};
ghost use Rattle.pager_model.specs.Collide.{IsCollide};
ghost use Rattle.pager_model.specs.Flights.{Flight as OpenFlight, is_reading, open_flights};
ghost use Rattle.pager_model.specs.Lookups.{page_by};
ghost use Rattle.pager_model.specs.Transfers.{starts};
ghost use Rattle.log_reasons.specs.RowReasons.{CollideFails, NamedFails, OtherReadFails};
ghost use Rattle.shadow_pager.specs.Shown.{shown};

use crate::holding::held_fails;
use log_reasons::Reason;
use row_requests::own_fails;
use shadow_history::ShadowHistory;
use shadow_pager::ShadowPager;
use vm_types::{Addr, Config, PAGE_BYTES, Pfn, Proc, Seat};

/// A fault that meets a read: of which seat and at which address the fault is, into which frame the read
/// goes, and the number of the entry that began it. Any numbers.
#[derive(Clone, Copy)]
pub struct Collision {
    pub seat: Seat,
    pub at: Addr,
    pub frame: Pfn,
    pub read: u64,
}

/// Why the transfer that entry k began isn't another seat's open read into the frame.
fn other_read_fails(past: &ShadowHistory<'_>, p: Proc, f: Pfn, k: u64) -> Option<Reason>
    ensures legal { IsNone result ↔ ((x : OpenFlight) × (find (starts k) (open_flights past.now.past) ≡ Some x) × (x.frame ≡ f.0)
        × (is_reading x.direction ≡ true) × (x.seat ≡ p.0 → ⊥)) }
    ensures said { IfSome result (OtherReadFails past.now.past p.0 f.0 k) }
{
    match past.flight(k) {
        None => Some(Reason::NoOpenTransfer),
        Some(x) => {
            if x.frame().0 != f.0 {
                return Some(Reason::TransferOfOtherFrame(x.frame()));
            }
            if !x.direction().is_reading() {
                return Some(Reason::TransferGoesOtherWay);
            }
            if x.seat().0 == p.0 {
                return Some(Reason::TransferIsOwn);
            }
            None
        }
    }
}

/// Why the frame doesn't hold the page, or the process named the read before.
fn named_fails(
    config: &Config,
    pager: &ShadowPager,
    p: Proc,
    v: u32,
    f: Pfn,
    k: u64,
) -> Option<Reason>
    ensures legal { IsNone result ↔ (((page : AnyPage) × (page_by config.now (shown pager.now).pager.map p.0 v ≡ Some page) × ((shown pager.now).pager.page f.0 ≡ Some page))
        × ((shown pager.now).pager.collided p.0 ≡ Some k → ⊥)) }
    ensures said { IfSome result (NamedFails config.now (shown pager.now).pager p.0 v f.0 k) }
{
    if let Some(reason) = held_fails(config, pager, p, v, f) {
        return Some(reason);
    }
    if pager.collided(p) == Some(k) {
        return Some(Reason::CollisionIsNamed);
    }
    None
}

/// Why the collision of a seat's fault with a read isn't legal.
pub fn collide_fails(past: &ShadowHistory<'_>, pager: &ShadowPager, c: Collision) -> Option<Reason>
    ensures legal { IsNone result ↔ IsCollide past.now.config past.now.past (shown pager.now).pager (c.seat).0 (c.at).0 (c.frame).0 c.read }
    ensures said { IfSome result (CollideFails past.now.config past.now.past (shown pager.now).pager (c.seat).0 (c.at).0 (c.frame).0 c.read) }
{
    let p = Proc(c.seat.0);
    if let Some(reason) = own_fails(past.config(), pager, p) {
        return Some(reason);
    }
    if let Some(reason) = other_read_fails(past, p, c.frame, c.read) {
        return Some(reason);
    }
    named_fails(
        past.config(),
        pager,
        p,
        c.at.0 / PAGE_BYTES,
        c.frame,
        c.read,
    )
}
