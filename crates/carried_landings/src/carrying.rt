ghost use Rattle.std.specs.Prelude.{◌≡◌, ◌+◌, [], false, length, map};
ghost use Rattle.pager_model.specs.Flights.{awaits_reuse, is_busy, open_flights, carrier_of};
ghost use Rattle.call_begins.specs.Lifted.{HasBegunLifts, place_of};
ghost use Rattle.carried_landings.specs.HaveLanded.{HaveLanded};
ghost use Rattle.carried_landings.specs.SeatFlights.{flight_place, of_others};

use crate::carrier_landed::CarrierLanded;
use crate::landing::land_carried;
use disk_trait::Block;
use vm_state::{Carrier, State};

/// Reads or writes the block of each lift, in their order, and lands the lifts, each failed read followed
/// by the reuse of its frame. They are all that is open of the carrier's seat, in the order in which it
/// was begun; the carrier is empty afterwards, and the seat has nothing open. Doesn't allocate.
#[inline(always)]
pub fn carry_and_land<B: Block>(state: &mut State<B>, carrier: &mut Carrier<B>) -> CarrierLanded
    requires calm { awaits_reuse state.old.past ≡ false }
    requires lifts { HasBegunLifts B.seen B.tells state.old carrier.old.seat carrier.old }
    requires whole { map flight_place (carrier_of carrier.old.seat.0 state.old.past) ≡ map place_of carrier.old.lifts }
    ensures landed { HaveLanded state.old.config carrier.old.seat.0 state.old.past state.new.past result }
    ensures same { state.new ≡ record state.old { past = state.new.past; spare = state.new.spare } }
    ensures spare { state.new.spare + length state.new.past ≡ state.old.spare + length state.old.past }
    ensures calm { awaits_reuse state.new.past ≡ false }
    ensures others { open_flights state.new.past ≡ of_others carrier.old.seat.0 (open_flights state.old.past) }
    ensures idle { is_busy carrier.old.seat.0 (open_flights state.new.past) ≡ false }
    ensures carrier { carrier.new ≡ record carrier.old { lifts = [] } }
{
    carrier.carry();
    land_carried(state, carrier)
}
