ghost use Rattle.std.specs.Prelude.{◌≡◌, ◌+◌, [], false, length};
ghost use Rattle.pager_model.specs.Flights.{awaits_reuse, is_busy, open_flights};
ghost use Rattle.vm_state.specs.Based.{base_of};
ghost use Rattle.carried_landings.specs.HaveLanded.{HaveLanded};
ghost use Rattle.carried_landings.specs.Outside.{AreOut, NoneWaits};
ghost use Rattle.carried_landings.specs.SeatFlights.{of_others};

use crate::carrier_landed::CarrierLanded;
use disk_trait::Block;
use vm_state::{Carrier, State};

/// Lands the lifts of a carrier, which were carried, each failed read followed by the reuse of its frame.
/// They are all that is open of the carrier's seat, in the order in which it was begun; the carrier is
/// empty afterwards, and the seat has nothing open. Doesn't allocate.
#[inline(always)]
pub fn land_carried<B: Block>(state: &mut State<B>, carrier: &mut Carrier<B>) -> CarrierLanded
    requires calm { awaits_reuse state.old.past ≡ false }
    requires out { AreOut B.seen B.tells (base_of state.old) state.old.past carrier.old.seat carrier.old }
    requires carried { NoneWaits carrier.old.lifts }
    ensures landed { HaveLanded state.old.config carrier.old.seat.0 state.old.past state.new.past result }
    ensures same { state.new ≡ record state.old { past = state.new.past; spare = state.new.spare } }
    ensures spare { state.new.spare + length state.new.past ≡ state.old.spare + length state.old.past }
    ensures calm { awaits_reuse state.new.past ≡ false }
    ensures others { open_flights state.new.past ≡ of_others carrier.old.seat.0 (open_flights state.old.past) }
    ensures idle { is_busy carrier.old.seat.0 (open_flights state.new.past) ≡ false }
    ensures carrier { carrier.new ≡ record carrier.old { lifts = [] } }
{
    state.run_law();
    let landed = state.land(carrier);
    state.run_law();
    CarrierLanded {
        all_failed: landed.good == 0,
        first_failed: landed.first_bad,
    }
}
