ghost use Rattle.std.specs.Prelude.{◌≡◌, ◌+◌, ◌<◌, false, length};
ghost use Rattle.pager_model.specs.Flights.{awaits_reuse};
ghost use Rattle.seat_schedules.specs.AtWork.{HasWorked, IsAtWork};

use crate::went::Went;
use crate::worker::Worker;
use carried_landings::carry_and_land;
use disk_trait::Block;
use vm_state::State;
use vm_types::Seat;

/// The seat's carrier is carried and lands, if it has lifts.
pub fn land<B: Block>(state: &mut State<B>, worker: &mut Worker<B>, seat: Seat) -> Went
    requires calm { awaits_reuse state.old.past ≡ false }
    requires at_work { IsAtWork B.seen B.tells state.old seat worker.old }
    ensures { HasWorked B.seen B.tells state.old state.new seat worker.new }
{
    if worker.carrier.len() == 0 {
        return Went::Barred;
    }
    let landed = carry_and_land(state, &mut worker.carrier);
    if !landed.first_failed {
        worker.reference = None;
    }
    Went::Made
}
