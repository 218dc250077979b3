ghost use Rattle.std.specs.Prelude.{◌≡◌, ◌+◌, [], IfOk, length};
ghost use Rattle.seat_schedules.specs.AtWork.{AreAtWork, idle};

use disk_trait::Block;
use std::alloc::Global;
use vm_state::{Carrier, State};
use vm_types::{NoMemory, Ref, Seat};

/// A seat at work: its carrier, and the reference for which its last reads were begun, unless these
/// have landed and the first one didn't fail.
#[derive(Drop)]
pub struct Worker<B: Block> {
    pub carrier: Carrier<B>,
    pub reference: Option<Ref>,
}

/// A worker of a seat that has done nothing yet.
///
/// # Errors
/// `NoMemory` if out of memory.
fn new_worker<B: Block>(alloc: Global, seat: Seat) -> Result<Worker<B>, NoMemory>
    ensures { IfOk result (λ w. w ≡ idle seat) }
{
    let carrier = Carrier::new(alloc, seat)?;
    Ok(Worker {
        carrier,
        reference: None,
    })
}

/// A worker for each seat before the first entry: those of the processes, the writer's and the
/// swapper's.
///
/// # Errors
/// `NoMemory` if out of memory.
pub fn all_workers<B: Block>(alloc: Global, state: &State<B>) -> Result<Vec<Worker<B>>, NoMemory>
    requires first { state.now.past ≡ [] }
    ensures { IfOk result (λ v. AreAtWork B.seen B.tells state.now v.items) }
{
    state.run_law();
    let seats = state.config().procs.items().len() as u32 + 2;
    let mut workers = Vec::with_capacity(alloc, seats as usize)?;
    for s in 0..seats {
        workers.push(new_worker(alloc, Seat(s))?)?;
    }
    Ok(workers)
}
