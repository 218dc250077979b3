ghost use Rattle.std.specs.Prelude.{◌≡◌, ◌^◌, ◌<◌, IfOk, length, map};
ghost use Rattle.pager_model.specs.Report.{all_states, in_state};
ghost use Rattle.run_text.specs.Rows.{frame_view};

use crate::report::FrameRow;
use std::alloc::Global;
use vm_types::{FrameState, Listed, NoMemory, is_same_state};

/// How many frames are in a state.
fn count_in(rows: &[FrameRow], state: FrameState) -> u32
    requires { length rows.now < 2 ^ 32 }
    ensures { result ≡ in_state (map frame_view rows.now) state }
{
    let mut count = 0;
    for row in rows {
        if is_same_state(row.state, state) {
            count += 1;
        }
    }
    count
}

/// How many frames are in each state, in the order of the states' codes.
pub fn count_states(alloc: Global, rows: &[FrameRow]) -> Result<Listed<u32>, NoMemory>
    requires { length rows.now < 2 ^ 32 }
    ensures { IfOk result (λ counts. counts ≡ map (in_state (map frame_view rows.now)) all_states) }
{
    let mut counts = Listed::new(alloc);
    counts.push(count_in(rows, FrameState::Free))?;
    counts.push(count_in(rows, FrameState::Modified))?;
    counts.push(count_in(rows, FrameState::Bad))?;
    counts.push(count_in(rows, FrameState::ReleasePending))?;
    counts.push(count_in(rows, FrameState::ReadError))?;
    counts.push(count_in(rows, FrameState::Writing))?;
    counts.push(count_in(rows, FrameState::Reading))?;
    counts.push(count_in(rows, FrameState::Active))?;
    Ok(counts)
}
