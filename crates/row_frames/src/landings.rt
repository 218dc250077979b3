//! INOK, INFAIL, OUTOK and OUTFAIL: why a read or a write may not land.

ghost use Rattle.std.specs.Prelude.{◌≡◌, ◌↔◌, ◌<◌, Some, IfSome, IsNone, find};
ghost use Rattle.pager_model.specs.Counted.{IsCounted};
ghost use Rattle.pager_model.specs.Flights.{Flight as OpenFlight, is_reading, open_flights};
ghost use Rattle.pager_model.specs.InOk.{IsLanding};
ghost use Rattle.pager_model.specs.Transfers.{starts};
ghost use Rattle.log_reasons.specs.LandingReasons.{BadLandingFails, CountedFails, LandingFails};
ghost use Rattle.row_frames.specs.Landings.{IsBadLanding, IsGoodLanding};

use log_reasons::Reason;
use shadow_history::ShadowHistory;
use vm_types::{Pfn, Seat};

/// Why a seat's transfer of a frame, begun in entry k, may not land: a read, or a write.
fn landing_fails(
    past: &ShadowHistory<'_>,
    seat: Seat,
    f: Pfn,
    k: u64,
    reads: bool,
) -> Option<Reason>
    ensures legal { IsNone result ↔ ((x : OpenFlight) × IsLanding past.now.past seat.0 f.0 k x × (is_reading x.direction ≡ reads)) }
    ensures said { IfSome result (LandingFails past.now.past seat.0 f.0 k reads) }
{
    match past.flight(k) {
        None => Some(Reason::NoOpenTransfer),
        Some(x) => {
            if x.seat().0 != seat.0 {
                return Some(Reason::TransferOfOtherSeat(x.seat()));
            }
            if x.frame().0 != f.0 {
                return Some(Reason::TransferOfOtherFrame(x.frame()));
            }
            if x.direction().is_reading() != reads {
                return Some(Reason::TransferGoesOtherWay);
            }
            None
        }
    }
}

/// Why these aren't the counts of a failure of the block of the transfer begun in entry k, before and
/// after it.
fn counted_fails(past: &ShadowHistory<'_>, k: u64, c: u64, d: u64) -> Option<Reason>
    ensures legal { (x : OpenFlight) → find (starts k) (open_flights past.now.past) ≡ Some x → (IsNone result ↔ IsCounted past.now.past x.block c d) }
    ensures said { IfSome result (CountedFails past.now.past k c d) }
{
    let x = past.flight(k)?;
    let last = past.last_count(x.block());
    if c != last {
        return Some(Reason::WrongCountBefore(last));
    }
    if d <= c {
        return Some(Reason::CountDoesNotRise);
    }
    None
}

/// Why a seat's transfer of a frame, begun in entry k, may not land well: a read, or a write.
pub fn good_landing_fails(
    past: &ShadowHistory<'_>,
    seat: Seat,
    f: Pfn,
    k: u64,
    reads: bool,
) -> Option<Reason>
    ensures legal { IsNone result ↔ IsGoodLanding reads past.now.past seat.0 f.0 k }
    ensures said { IfSome result (LandingFails past.now.past seat.0 f.0 k reads) }
{
    landing_fails(past, seat, f, k, reads)
}

/// Why a seat's transfer of a frame, begun in entry k, may not land badly, with these counts of its block's
/// failures before and after it: a read, or a write.
pub fn bad_landing_fails(
    past: &ShadowHistory<'_>,
    seat: Seat,
    f: Pfn,
    k: u64,
    c: u64,
    d: u64,
    reads: bool,
) -> Option<Reason>
    ensures legal { IsNone result ↔ IsBadLanding reads past.now.past seat.0 f.0 k c d }
    ensures said { IfSome result (BadLandingFails past.now.past seat.0 f.0 k c d reads) }
{
    if let Some(reason) = landing_fails(past, seat, f, k, reads) {
        return Some(reason);
    }
    counted_fails(past, k, c, d)
}
