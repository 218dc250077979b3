ghost use Rattle.std.specs.Prelude.{◌≡◌, ◌+◌, ◌<◌, ◌≤◌, false, length};
ghost use Rattle.pager_model.specs.Flights.{awaits_reuse};
ghost use Rattle.vm_state.specs.History.{owed};
ghost use Rattle.seat_laws.specs.FreeSeat.{IsFreeSeat};
ghost use Rattle.seat_schedules.specs.AtWork.{HasWorked, IsAtWork, idle};

use crate::act::Act;
use crate::asks::ask;
use crate::landing::land;
use crate::refusing::refuse;
use crate::swaps::{choose, leave, write};
use crate::went::Went;
use crate::worker::Worker;
use disk_trait::Block;
use vm_state::State;
use vm_types::Seat;

/// What a seat does that has no open transfer, and no reference to refuse.
fn begin_work<B: Block>(state: &mut State<B>, worker: &mut Worker<B>, seat: Seat, act: Act) -> Went
    requires free { IsFreeSeat state.old seat }
    requires worker { worker.old ≡ idle seat }
    ensures { HasWorked B.seen B.tells state.old state.new seat worker.new }
{
    match act {
        Act::Ask(place) => ask(state, worker, seat, place),
        Act::Write => write(state, worker, seat),
        Act::Choose => choose(state, seat),
        Act::Leave(p) => leave(state, worker, seat, p),
        Act::Land => Went::Barred,
        Act::Refuse => Went::Barred,
    }
}

/// What a seat does in one step.
pub fn work<B: Block>(state: &mut State<B>, worker: &mut Worker<B>, seat: Seat, act: Act) -> Went
    requires there { seat.0 < length state.old.config.procs + 2 }
    requires calm { awaits_reuse state.old.past ≡ false }
    requires room { owed state.old.past + 64 ≤ state.old.spare }
    requires at_work { IsAtWork B.seen B.tells state.old seat worker.old }
    ensures { HasWorked B.seen B.tells state.old state.new seat worker.new }
{
    if let Act::Land = act {
        return land(state, worker, seat);
    }
    if worker.carrier.len() > 0 {
        return Went::Barred;
    }
    if let Act::Refuse = act {
        return refuse(state, worker, seat);
    }
    worker.reference = None;
    begin_work(state, worker, seat, act)
}
