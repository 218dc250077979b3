ghost use Rattle.std.specs.Prelude.{◌≡◌, IfOk, replicate};
ghost use Rattle.pager_model.specs.Report.{report_of};
ghost use Rattle.vm_state.specs.History.{pager};
ghost use Rattle.run_text.specs.Printable.{IsPrintable};

use crate::rows::{frame_rows, process_rows};
use disk_trait::Block;
use run_text::{Report, count_states};
use std::alloc::Global;
use vm_state::State;
use vm_types::NoMemory;

/// No count yet of so many frames.
fn no_counts(alloc: Global, frames: u32) -> Result<Vec<u32>, NoMemory>
    ensures { IfOk result (λ v. v.items ≡ replicate frames 0) }
{
    Ok(vec![in alloc; 0; frames as usize]?)
}

/// The report of a state, counted anew: a frame's shares are the slots of working sets whose entries
/// name it, its references come from these, from its transfer and from its pins, and the states are counted
/// frame by frame. The report has a text. Looks once at each slot of each process and at each frame.
///
/// # Errors
/// `NoMemory` if out of memory.
pub fn recount<B: Block>(alloc: Global, state: &State<B>) -> Result<Report, NoMemory>
    ensures report { IfOk result (λ r. r ≡ report_of state.now.config state.now.past (pager state.now)) }
    ensures printable { IfOk result (IsPrintable state.now.config.sections) }
{
    state.run_law();
    let config = state.config();
    let mut counts = no_counts(alloc, config.frames)?;
    let mut pins = no_counts(alloc, config.frames)?;
    let processes = process_rows(alloc, state, &mut counts, &mut pins)?;
    let frames = frame_rows(alloc, state, &counts, &pins)?;
    let states = count_states(alloc, frames.items())?;
    Ok(Report {
        at: state.entry_count(),
        states,
        frames,
        size: config.pagefile,
        charged: state.charged(),
        assigned: state.assigned(),
        processes,
    })
}
