ghost use Rattle.std.specs.Prelude.{◌≡◌, ◌+◌, IfOk, length};
ghost use Rattle.serial_moves.specs.Carriers.{AreIdle};

use disk_trait::Block;
use std::alloc::Global;
use vm_state::{Carrier, State};
use vm_types::{NoMemory, Seat};

/// A carrier without lifts for each seat: those of the processes, the writer's and the swapper's.
///
/// # Errors
/// `NoMemory` if out of memory.
pub fn all_carriers<B: Block>(alloc: Global, state: &State<B>) -> Result<Vec<Carrier<B>>, NoMemory>
    ensures { IfOk result (λ v. AreIdle state.now v.items) }
{
    state.run_law();
    let seats = state.config().procs.items().len() as u32 + 2;
    let mut carriers = Vec::with_capacity(alloc, seats as usize)?;
    for s in 0..seats {
        carriers.push(Carrier::new(alloc, Seat(s))?)?;
    }
    Ok(carriers)
}
