ghost use Rattle.std.specs.Prelude.{◌≡◌, List, OnErr, OnOk};
ghost use Rattle.vm_journal.specs.declared.entry.What.{What};
ghost use Rattle.pager_policy.specs.Given.{made_by};
ghost use Rattle.seat_schedules.specs.AtWork.{AreAtWork};

use crate::act::Act;
use crate::went::Went;
use crate::work::work;
use crate::worker::Worker;
use disk_trait::Block;
use vm_state::State;
use vm_types::{NoMemory, Seat};

/// One step of a schedule.
///
/// # Errors
/// `NoMemory` if out of memory. Nothing was made.
pub fn take<B: Block>(
    state: &mut State<B>,
    workers: &mut [Worker<B>],
    seat: Seat,
    act: Act,
) -> Result<Went, NoMemory>
    requires { AreAtWork B.seen B.tells state.old workers.old }
    ensures at_work { AreAtWork B.seen B.tells state.new workers.new }
    ensures config { state.new.config ≡ state.old.config }
    ensures keeps { state.new.keeps ≡ state.old.keeps }
    ensures made { OnOk result ((made : List What) × (state.new.past ≡ made_by seat.0 made state.old.past)) }
    ensures none { OnErr result (state.new ≡ state.old) }
{
    state.reserve(64)?;
    if seat.0 as usize >= workers.len() {
        return Ok(Went::Barred);
    }
    let went = work(state, &mut workers[seat.0 as usize], seat, act);
    state.run_law();
    Ok(went)
}

/// The steps of a schedule, in their order, up to the first one that doesn't go well. How the last one
/// went.
///
/// # Errors
/// `NoMemory` if out of memory. The steps before were made.
pub fn play<B: Block>(
    state: &mut State<B>,
    workers: &mut [Worker<B>],
    steps: &[(Seat, Act)],
) -> Result<Went, NoMemory>
    requires { AreAtWork B.seen B.tells state.old workers.old }
    ensures at_work { AreAtWork B.seen B.tells state.new workers.new }
    ensures config { state.new.config ≡ state.old.config }
    ensures keeps { state.new.keeps ≡ state.old.keeps }
{
    for (seat, act) in steps {
        match take(state, workers, *seat, *act)? {
            Went::Made => {}
            other => return Ok(other),
        }
    }
    Ok(Went::Made)
}
