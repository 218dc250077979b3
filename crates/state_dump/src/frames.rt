//! The page frames of a dump.

ghost use Rattle.std.specs.Prelude.{◌≡◌, ◌<◌, ◌++◌, ◌∷◌, [], IfOk, OnOk, map, if◌then◌else◌};
ghost use Rattle.std.specs.List.{range_with_len};
ghost use Rattle.pager_model.specs.Flights.{open_flights};
ghost use Rattle.pager_model.specs.Transfers.{is_in_flight};
ghost use Rattle.vm_state.specs.History.{pager};
ghost use Rattle.dump_laws.specs.DumpAfter.{busy_frames, dumped_frame, frame_at};

use crate::codes::state_code;
use disk_trait::Block;
use dump_bytes::FrameRec;
use pfn_database::Row;
use std::alloc::Global;
use vm_state::State;
use vm_types::{NoMemory, Pfn};

/// What a dump has of a row of the PFN database.
fn frame_rec(row: Row) -> FrameRec
    ensures { result ≡ dumped_frame row }
{
    FrameRec {
        state: state_code(row.state),
        modify: row.modify,
        page: row.page,
        refs: row.refs,
        shares: row.shares,
    }
}

/// The page frames by number.
pub(crate) fn frame_recs<B: Block>(
    alloc: Global,
    state: &State<B>,
) -> Result<Vec<FrameRec>, NoMemory>
    ensures { IfOk result (λ recs. recs.items ≡ map (frame_at state.now.past (pager state.now)) (range_with_len 0 state.now.config.frames)) }
{
    let frames = state.config().frames;
    let mut recs = Vec::with_capacity(alloc, frames as usize)?;
    for f in 0..frames {
        recs.push(frame_rec(state.frame(Pfn(f))))?;
    }
    Ok(recs)
}

/// Whether a frame of the configuration has an open transfer.
fn is_busy<B: Block>(state: &State<B>, f: Pfn) -> bool
    requires { f.0 < state.now.config.frames }
    ensures { result ≡ is_in_flight f.0 (open_flights state.now.past) }
{
    state.frame(f).flights > 0
}

/// Adds a frame of the configuration to those with an open transfer, if it has one.
fn push_busy<B: Block>(state: &State<B>, f: u32, frames: &mut Vec<u32>) -> Result<(), NoMemory>
    requires { f < state.now.config.frames }
    ensures { OnOk result (frames.new.items ≡ frames.old.items ++ (if is_in_flight f (open_flights state.now.past) then f ∷ [] else [])) }
{
    if is_busy(state, Pfn(f)) {
        frames.push(f)?;
    }
    Ok(())
}

/// The frames with an open transfer, ascending.
pub(crate) fn frames_in_transfer<B: Block>(
    alloc: Global,
    state: &State<B>,
) -> Result<Vec<u32>, NoMemory>
    ensures { IfOk result (λ frames. frames.items ≡ busy_frames state.now.config state.now.past) }
{
    let mut frames = Vec::new(alloc);
    for f in 0..state.config().frames {
        push_busy(state, f, &mut frames)?;
    }
    Ok(frames)
}
