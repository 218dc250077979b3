ghost use Rattle.std.specs.Prelude.{◌≡◌, ◌<◌, ◌≤◌, length};
ghost use Rattle.vm_types.specs.declared.limits.TheConstants.{MOST_EXTENT};
ghost use Rattle.vm_state.specs.History.{pager};
ghost use Rattle.vm_swapper.specs.Runs.{gathered, wanted_at};

use crate::slots::{address_at, frame_at};
use arrayvec::ArrayVec;
use disk_trait::Block;
use vm_state::State;
use vm_types::{Proc, Seat};

/// A run of consecutive slots of a process, from one on, and the seat that works on their pages.
#[derive(Clone, Copy, Debug, PartialEq, Eq)]
pub struct Run {
    pub seat: Seat,
    pub p: Proc,
    pub slot: u32,
}

/// What is gathered from the slots of a run.
#[derive(Clone, Copy, Debug, PartialEq, Eq)]
pub enum Wanted {
    /// The number of the frame of a private page, not pinned and without an open transfer.
    Frame,
    /// The address of the page that lies in the slot's swap block, and is in no frame.
    Address,
}

/// What is wanted of a slot (any number) of a process of the configuration; none if it hasn't that.
fn wanted_at<B: Block>(state: &State<B>, p: Proc, n: u32, wanted: Wanted) -> Option<u32>
    requires { p.0 < length state.now.config.procs }
    ensures { result ≡ wanted_at state.now.config state.now.past (pager state.now) p.0 wanted n }
{
    match wanted {
        Wanted::Frame => frame_at(state, p, n),
        Wanted::Address => address_at(state, p, n),
    }
}

/// What is wanted of the slots of a run of a process of the configuration: up to the first slot that
/// hasn't it, and `most` at most.
pub fn gathered<B: Block>(
    state: &State<B>,
    run: Run,
    most: u32,
    wanted: Wanted,
) -> ArrayVec<u32, 16>
    requires process { (run.p).0 < length state.now.config.procs }
    requires slot { run.slot < MOST_EXTENT }
    requires most { most ≤ 16 }
    ensures { result.items ≡ gathered (wanted_at state.now.config state.now.past (pager state.now) (run.p).0 wanted) run.slot most }
{
    let mut items = ArrayVec::new();
    for n in run.slot..run.slot + most {
        match wanted_at(state, run.p, n, wanted) {
            Some(item) => items.push(item),
            None => return items,
        }
    }
    items
}
