ghost use Rattle.std.specs.Prelude.{◌≡◌, ◌≢◌, ◌⊎◌, ◌≤◌, []};
ghost use Rattle.std.specs.Io.KnownBytes.{Keeps};
ghost use Rattle.vm_types.specs.Moved.{moved};
ghost use Rattle.vm_types.specs.Counts.{Rose};
ghost use Rattle.command_calls.specs.CommandCall.{IsCommandCall};
ghost use Rattle.command_calls.specs.Moves.{moves};
ghost use Rattle.command_ends.specs.Concludes.{HasTold};
ghost use Rattle.command_ends.specs.Wrongs.{IsWrong, IsWrongText};
ghost use Rattle.program_call.specs.Explained.{IsExplained};
ghost use Rattle.program_call.specs.LineTold.{IsLineTold};
ghost use Rattle.program_call.specs.ProgramRun.{IsProgramRun};
ghost use Rattle.program_call.specs.ProgramTells.{ProgramTells};

use crate::arguments::Arguments;
use crate::words::{copied_words, texts_of};
use arrayvec::ArrayVec;
use command_calls::CallEnds;
use command_ends::{Status, Wrong, end_with};
use command_messages::{LineFault, explain, quoted_fault};
use disk_trait::Depot;
use outside_io::{Sink, Source};
use replay_cli::run_many_and_tell;
use std::alloc::Global;
use std::sync::Wait;
use std::thread::Threads;

/// Copies the words, and runs the command that they name, by threads if it is `replay`. With words that aren't UTF-8 the
/// command line is faulty. With status 1 it answers besides what is wrong with the words, and keeps the bytes of the
/// first word that a message quotes.
fn run_words<R: Threads + Wait + Sync, A: Arguments, S: Source, K: Sink, D: Depot>(
    rt: &R,
    alloc: Global,
    arguments: &mut A,
    ends: &mut CallEnds<S, K, D>,
    kept: &mut ArrayVec<u8, 80>,
) -> (Status, Option<Wrong>, Option<LineFault>)
    ensures call { IsCommandCall (ProgramTells (A.left arguments.old)) (moves S.seen K.seen D.seen ends.old ends.new) result.0.0 }
    ensures wrong { result.0.0 ≢ 4 → HasTold (IsWrong result.1) (K.seen ends.old.output) (K.seen ends.new.output) result.0.0 }
    ensures kept { IsWrongText result.1 (S.seen ends.old.source).left kept.new.items }
    ensures line { result.0.0 ≡ 1 → IsLineTold (A.left arguments.old) result.2 kept.new.items }
{
    let Ok(words) = copied_words(alloc, arguments) else {
        return (end_with(7, &mut ends.output), None, None);
    };
    match texts_of(alloc, words.as_slice()) {
        Ok(Some(texts)) => {
            let told = run_many_and_tell(rt, alloc, texts.as_slice(), ends, kept);
            if told.0.0 == 1 {
                return (told.0, None, Some(quoted_fault(texts.as_slice(), kept)));
            }
            (told.0, told.1, None)
        }
        Ok(None) => {
            let told = run_many_and_tell(rt, alloc, &[], ends, kept);
            (told.0, told.1, Some(LineFault::NotText))
        }
        Err(_) => (end_with(7, &mut ends.output), None, None),
    }
}

/// Hands on what the output keeps, unless a write has failed already, and ends with the status, or
/// with 4 if that fails.
fn finish<K: Sink>(status: Status, output: &mut K) -> Status
    ensures unwritten { result.0 ≡ 4 → (status.0 ≡ 4) ⊎ ((status.0 ≢ 4) × Rose (K.seen output.old).failures (K.seen output.new).failures) }
    ensures run { result.0 ≢ 4 → (result.0 ≡ status.0) × ((K.seen output.new).kept ≡ []) × ((K.seen output.new).failures ≡ (K.seen output.old).failures) }
    ensures bytes { Keeps (K.seen output.old).taken (K.seen output.new).taken }
    ensures still { status.0 ≡ 4 → output.new ≡ output.old }
    ensures later { (K.seen output.old).failures ≤ (K.seen output.new).failures }
    ensures stalls { (K.seen output.new).stalls ≡ (K.seen output.old).stalls }
{
    if status.0 == 4 {
        return status;
    }
    match output.flush() {
        Ok(()) => status,
        Err(_) => Status(4),
    }
}

/// The whole program over its ends: copies the words after the program's own name, runs the command that they name over
/// blocks of the depot, hands on what the output keeps, and says beside it what is wrong: with the command line, and
/// usage, beside status 1; for a trace that is wrong a line with the number of the faulty line, why it is at fault, and
/// its first 80 bytes, or that it is unfinished; that a log is too long, or the number and the text of its first line
/// that isn't legal; what failed beside status 3, 4, 6 and 7. The status is that of the command; 1 also if a word isn't
/// UTF-8, 7 if memory ran out before the command, and 4 if a write or the flush failed. After a write that failed nothing
/// more is written; messages that can't be written change nothing. `replay` runs by threads, for which it waits: that it
/// returns isn't promised. Each other command runs on one thread.
pub fn run_and_explain<
    R: Threads + Wait + Sync,
    A: Arguments,
    S: Source,
    K: Sink,
    M: Sink,
    D: Depot,
>(
    rt: &R,
    alloc: Global,
    arguments: &mut A,
    ends: &mut CallEnds<S, K, D>,
    messages: &mut M,
) -> Status
    ensures run { IsProgramRun (A.left arguments.old) (moves S.seen K.seen D.seen ends.old ends.new) result.0 }
    ensures message { IsExplained (A.left arguments.old) (moves S.seen K.seen D.seen ends.old ends.new)
        (moved (M.seen messages.old) (M.seen messages.new)) result.0 }
{
    let mut kept = ArrayVec::new();
    let told = run_words(rt, alloc, arguments, ends, &mut kept);
    let status = finish(told.0, &mut ends.output);
    explain(status.0, told.1, told.2, &kept, messages);
    status
}
