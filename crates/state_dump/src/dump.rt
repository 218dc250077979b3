ghost use Rattle.std.specs.Prelude.{◌≡◌, IfOk};
ghost use Rattle.dump_bytes.specs.Bounds.{IsDump};
ghost use Rattle.dump_bytes.specs.Dumped.{dumped};
ghost use Rattle.dump_laws.specs.DumpAfter.{dump_after};

use crate::frames::{frame_recs, frames_in_transfer};
use crate::lists::list_frames;
use crate::processes::proc_recs;
use disk_trait::Block;
use dump_bytes::Dump;
use dump_laws::dumps_of_runs_are_sound;
use page_lists::ListName;
use std::alloc::Global;
use vm_state::State;
use vm_types::NoMemory;

/// The dump of a state: the page frames with the counts that the PFN database keeps, the page lists,
/// the page file's three numbers, the processes with their slots and valid entries, and the frames with
/// an open transfer. It keeps the bounds, codes and orders of its layout. Looks twice at each frame and
/// at each slot, and sorts the valid pages of each process.
///
/// # Errors
/// `NoMemory` if out of memory.
pub fn dump_of<B: Block>(alloc: Global, state: &State<B>) -> Result<Dump, NoMemory>
    ensures dump { IfOk result (λ dump. dumped dump ≡ dump_after state.now.config state.now.past) }
    ensures bounds { IfOk result (λ dump. IsDump (dumped dump)) }
{
    state.run_law();
    dumps_of_runs_are_sound();
    let frames = frame_recs(alloc, state)?;
    let free = list_frames(alloc, state, ListName::Free)?;
    let modified = list_frames(alloc, state, ListName::Modified)?;
    let size = state.config().pagefile;
    let charged = state.charged();
    let assigned = state.assigned();
    let procs = proc_recs(alloc, state)?;
    let flights = frames_in_transfer(alloc, state)?;
    Ok(Dump {
        frames,
        free,
        modified,
        size,
        charged,
        assigned,
        procs,
        flights,
    })
}
