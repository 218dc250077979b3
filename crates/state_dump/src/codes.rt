//! The codes of a dump.

ghost use Rattle.std.specs.Prelude.{◌≡◌};
ghost use Rattle.vm_types.specs.Same as same;
ghost use Rattle.dump_laws.specs.DumpAfter as after;

use vm_types::{FrameState, ProcStatus};

/// The code of a page frame's state.
pub(crate) fn state_code(state: FrameState) -> u8
    ensures { result ≡ same.state_code state }
{
    match state {
        FrameState::Free => 0,
        FrameState::Modified => 1,
        FrameState::Bad => 2,
        FrameState::ReleasePending => 3,
        FrameState::ReadError => 4,
        FrameState::Writing => 5,
        FrameState::Reading => 6,
        FrameState::Active => 7,
    }
}

/// The code of a process's status.
pub(crate) fn status_code(status: ProcStatus) -> u8
    ensures { result ≡ after.status_code status }
{
    match status {
        ProcStatus::Resident => 0,
        ProcStatus::Leaving => 1,
        ProcStatus::Gone => 2,
        ProcStatus::Coming => 3,
    }
}
