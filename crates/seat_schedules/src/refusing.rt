ghost use Rattle.std.specs.Prelude.{◌≡◌, []};
ghost use Rattle.seat_laws.specs.FreeSeat.{IsFreeSeat};
ghost use Rattle.seat_schedules.specs.AtWork.{HasWorked, IsAtWork};

use crate::went::Went;
use crate::worker::Worker;
use disk_trait::Block;
use seat_laws::is_unmet;
use vm_state::State;
use vm_types::{Proc, Ref, Seat};

/// The reference is refused whose read failed.
pub fn refuse<B: Block>(state: &mut State<B>, worker: &mut Worker<B>, seat: Seat) -> Went
    requires free { IsFreeSeat state.old seat }
    requires at_work { IsAtWork B.seen B.tells state.old seat worker.old }
    requires empty { worker.old.carrier.lifts ≡ [] }
    ensures { HasWorked B.seen B.tells state.old state.new seat worker.new }
{
    if seat.0 as usize >= state.config().procs.items().len() {
        return Went::Barred;
    }
    match worker.reference {
        Some(r) => {
            if !is_unmet(state, Proc(seat.0), r) {
                return Went::Waits;
            }
            state.run_law();
            fault_core::refuse(state, seat, Proc(seat.0), r);
            worker.reference = None;
            Went::Made
        }
        None => Went::Barred,
    }
}
