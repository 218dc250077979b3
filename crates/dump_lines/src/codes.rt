//! The states of frames and of processes by their codes in a dump.

ghost use Rattle.std.specs.Prelude.{◌≡◌};
ghost use Rattle.dump_lines.specs.Codes as codes;

use vm_types::{FrameState, ProcStatus};

// The states of a frame, each at the place that its code says.
const STATES: [FrameState; 8] = [
    FrameState::Free,
    FrameState::Modified,
    FrameState::Bad,
    FrameState::ReleasePending,
    FrameState::ReadError,
    FrameState::Writing,
    FrameState::Reading,
    FrameState::Active,
];

// The statuses of a process, each at the place that its code says.
const STATUSES: [ProcStatus; 4] = [
    ProcStatus::Resident,
    ProcStatus::Leaving,
    ProcStatus::Gone,
    ProcStatus::Coming,
];

/// A frame's state by its code, 0 to 7.
pub(crate) fn state_of_code(code: u8) -> FrameState
    ensures { result ≡ codes.state_of_code code }
{
    STATES
        .get(code as usize)
        .copied()
        .unwrap_or(FrameState::Active)
}

/// A process's status by its code, 0 to 3.
pub(crate) fn status_of_code(code: u8) -> ProcStatus
    ensures { result ≡ codes.status_of_code code }
{
    STATUSES
        .get(code as usize)
        .copied()
        .unwrap_or(ProcStatus::Coming)
}
