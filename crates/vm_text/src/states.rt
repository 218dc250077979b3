ghost use Rattle.std.specs.Prelude.{◌≡◌, ◌+◌, ◌≤◌, ◌++◌};
ghost use Rattle.arrayvec.specs.ArrayVec.{array_vec_len};
ghost use Rattle.vm_text.specs.Readings.{Reads};
ghost use Rattle.vm_text.specs.States.{state_word, status_word, mark_text};

use crate::text::push_word;
use arrayvec::ArrayVec;
use vm_types::{FrameState, ProcStatus};

/// Adds the word for a frame's state. Doesn't allocate.
pub fn push_state<const CAP: usize>(out: &mut ArrayVec<u8, CAP>, state: FrameState)
    requires { array_vec_len out.old + 9 ≤ CAP }
    ensures items { out.new.items ≡ out.old.items ++ state_word state }
    ensures len { array_vec_len out.new ≤ array_vec_len out.old + 9 }
{
    match state {
        FrameState::Free => push_word(out, b"FREE"),
        FrameState::Modified => push_word(out, b"MODIFIED"),
        FrameState::Bad => push_word(out, b"BAD"),
        FrameState::ReleasePending => push_word(out, b"RELEASE"),
        FrameState::ReadError => push_word(out, b"READERROR"),
        FrameState::Writing => push_word(out, b"WRITING"),
        FrameState::Reading => push_word(out, b"READING"),
        FrameState::Active => push_word(out, b"ACTIVE"),
    }
}

/// Adds the word for a process's status. Doesn't allocate.
pub fn push_status<const CAP: usize>(out: &mut ArrayVec<u8, CAP>, status: ProcStatus)
    requires { array_vec_len out.old + 8 ≤ CAP }
    ensures items { out.new.items ≡ out.old.items ++ status_word status }
    ensures len { array_vec_len out.new ≤ array_vec_len out.old + 8 }
{
    match status {
        ProcStatus::Resident => push_word(out, b"RESIDENT"),
        ProcStatus::Leaving => push_word(out, b"LEAVING"),
        ProcStatus::Gone => push_word(out, b"GONE"),
        ProcStatus::Coming => push_word(out, b"COMING"),
    }
}

/// Adds 1 for a mark that is set, else 0. Doesn't allocate.
pub fn push_mark<const CAP: usize>(out: &mut ArrayVec<u8, CAP>, mark: bool)
    requires { array_vec_len out.old + 1 ≤ CAP }
    ensures items { out.new.items ≡ out.old.items ++ mark_text mark }
    ensures len { array_vec_len out.new ≡ array_vec_len out.old + 1 }
{
    out.push(if mark { b'1' } else { b'0' });
}

/// The frame's state of this word. Doesn't allocate.
pub fn read_state(word: &[u8]) -> Option<FrameState>
    ensures { Reads (λ _. Unit {0}) state_word word.now result }
{
    match word {
        b"FREE" => Some(FrameState::Free),
        b"MODIFIED" => Some(FrameState::Modified),
        b"BAD" => Some(FrameState::Bad),
        b"RELEASE" => Some(FrameState::ReleasePending),
        b"READERROR" => Some(FrameState::ReadError),
        b"WRITING" => Some(FrameState::Writing),
        b"READING" => Some(FrameState::Reading),
        b"ACTIVE" => Some(FrameState::Active),
        _ => None,
    }
}

/// The process's status of this word. Doesn't allocate.
pub fn read_status(word: &[u8]) -> Option<ProcStatus>
    ensures { Reads (λ _. Unit {0}) status_word word.now result }
{
    match word {
        b"RESIDENT" => Some(ProcStatus::Resident),
        b"LEAVING" => Some(ProcStatus::Leaving),
        b"GONE" => Some(ProcStatus::Gone),
        b"COMING" => Some(ProcStatus::Coming),
        _ => None,
    }
}
