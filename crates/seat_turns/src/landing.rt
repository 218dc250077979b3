ghost use Rattle.std.specs.Prelude.{◌≡◌, true, false, []};
ghost use Rattle.pager_model.specs.Flights.{awaits_reuse};
ghost use Rattle.vm_state.specs.Based.{base_of};
ghost use Rattle.call_begins.specs.MayBegin.{empty};
ghost use Rattle.carried_landings.specs.Outside.{AreOut, NoneWaits};
ghost use Rattle.seat_turns.specs.Worked.{HasLandedOut, WasLost};

use carried_landings::land_carried;
use disk_trait::Block;
use vm_state::{Carrier, State};
use vm_types::Seat;

/// Lands what the seat has out, which was carried. Returns whether it was lost: all of it failed, or, if
/// it is reads of a reference's own page, the first one did.
pub(crate) fn land_out<B: Block>(
    state: &mut State<B>,
    carrier: &mut Carrier<B>,
    _seat: Seat,
    reading: bool,
) -> bool
    requires calm { awaits_reuse state.old.past ≡ false }
    requires out { AreOut B.seen B.tells (base_of state.old) state.old.past _seat carrier.old }
    requires carried { NoneWaits carrier.old.lifts }
    ensures landed { HasLandedOut state.old state.new _seat }
    ensures carrier { carrier.new ≡ empty _seat }
    ensures lost { result ≡ true → WasLost state.old state.new _seat.0 reading × (carrier.old.lifts ≡ [] → ⊥) }
{
    let count = carrier.len();
    let landed = land_carried(state, carrier);
    if count == 0 {
        return false;
    }
    if landed.all_failed {
        return true;
    }
    if reading {
        return landed.first_failed;
    }
    false
}
