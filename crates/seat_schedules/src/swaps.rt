ghost use Rattle.std.specs.Prelude.{◌≡◌, ◌+◌, ◌<◌, IsTrue, length};
ghost use Rattle.vm_types.specs.declared.names.ProcStatus.TheVariants as status;
ghost use Rattle.vm_state.specs.History.{pager};
ghost use Rattle.seat_laws.specs.FreeSeat.{IsFreeSeat};
ghost use Rattle.seat_schedules.specs.AtWork.{HasWorked, idle};

use crate::went::Went;
use crate::worker::Worker;
use call_laws::turns_are_legal;
use disk_trait::Block;
use modified_writer::{Begin, Reason, begin};
use vm_state::State;
use vm_swapper::{Swap, leave_some, victim};
use vm_types::{Proc, ProcStatus, Seat};

/// A write cluster begins.
pub fn write<B: Block>(state: &mut State<B>, worker: &mut Worker<B>, seat: Seat) -> Went
    requires free { IsFreeSeat state.old seat }
    requires worker { worker.old ≡ idle seat }
    ensures { HasWorked B.seen B.tells state.old state.new seat worker.new }
{
    match begin(state, seat, Reason::Need, &mut worker.carrier) {
        Begin::Carry => Went::Made,
        Begin::Nothing => Went::Waits,
        Begin::Room => unreachable!(),
    }
}

/// The process that is chosen to leave turns to leaving.
pub fn choose<B: Block>(state: &mut State<B>, seat: Seat) -> Went
    requires free { IsFreeSeat state.old seat }
    ensures { HasWorked B.seen B.tells state.old state.new seat (idle seat) }
{
    state.run_law();
    turns_are_legal();
    match victim(state, None) {
        Some(q) => {
            state.turn(seat, q, ProcStatus::Leaving);
            Went::Made
        }
        None => Went::Waits,
    }
}

/// Whether a process with this status is leaving memory.
fn is_leaving(s: ProcStatus) -> bool
    ensures { IsTrue result → s ≡ status.Leaving }
{
    matches!(s, ProcStatus::Leaving)
}

/// A process goes on to leave, if it is leaving.
pub fn leave<B: Block>(state: &mut State<B>, worker: &mut Worker<B>, seat: Seat, p: Proc) -> Went
    requires free { IsFreeSeat state.old seat }
    requires worker { worker.old ≡ idle seat }
    ensures { HasWorked B.seen B.tells state.old state.new seat worker.new }
{
    if p.0 as usize >= state.config().procs.items().len() {
        return Went::Barred;
    }
    if !is_leaving(state.status(p)) {
        return Went::Barred;
    }
    match leave_some(state, seat, p, &mut worker.carrier) {
        Swap::Carry => Went::Made,
        Swap::More => Went::Made,
        Swap::Settled => Went::Made,
        Swap::Again(_) => Went::Waits,
        Swap::Room => unreachable!(),
    }
}
