//! The call on many threads.

ghost use Rattle.std.specs.Prelude.{◌≡◌, ◌≢◌};
ghost use Rattle.command_ends.specs.Concludes.{HasTold};
ghost use Rattle.command_ends.specs.Wrongs.{IsWrong, IsWrongText};
ghost use Rattle.command_calls.specs.Moves.{moves};
ghost use Rattle.replay_cli.specs.CommandRun.{IsCommandRun};
ghost use Rattle.replay_cli.specs.Commands.{texts};
ghost use Rattle.replay_cli.specs.declared.ways.Way.{Way};

use crate::cli::run_alone;
use crate::replay_call::replay;
use crate::ways::{Way, which};
use crate::words::command_of;
use arrayvec::ArrayVec;
use command_calls::CallEnds;
use command_ends::{Status, Wrong, end_with};
use disk_trait::Depot;
use outside_io::{Sink, Source};
use std::alloc::Global;
use std::sync::Wait;
use std::thread::Threads;

/// As `run_many`, and answers besides what is wrong with the input, if anything is, as `run_one_and_tell` does. The
/// first 80 bytes of a faulty line are kept in `kept`.
pub fn run_many_and_tell<R: Threads + Wait + Sync, S: Source, K: Sink, D: Depot>(
    rt: &R,
    alloc: Global,
    words: &[&str],
    ends: &mut CallEnds<S, K, D>,
    kept: &mut ArrayVec<u8, 80>,
) -> (Status, Option<Wrong>)
    // With status 0 or 5 of `serial` or `replay` the trace was served; what every other status means is said too.
    ensures run { IsCommandRun Way.Many (texts words.now) (moves S.seen K.seen D.seen ends.old ends.new) result.0.0 }
    // With every status but 4 the text that was written says the same of the input.
    ensures wrong { result.0.0 ≢ 4 → HasTold (IsWrong result.1) (K.seen ends.old.output) (K.seen ends.new.output) result.0.0 }
    // Of a faulty line the first bytes were kept.
    ensures kept { IsWrongText result.1 (S.seen ends.old.source).left kept.new.items }
{
    match command_of(alloc, words) {
        Err(_) => (end_with(7, &mut ends.output), None),
        Ok(None) => (end_with(1, &mut ends.output), None),
        Ok(Some(command)) => match which(command) {
            Way::One => run_alone(alloc, command, ends, kept),
            Way::Many => replay(rt, alloc, ends, kept),
        },
    }
}

/// Runs the command for which the words ask: each of those of `run_one`, and `replay`, which reads a trace from the
/// source, makes the blocks that it names by the depot, answers its requests by threads, a worker for each process, for
/// the modified page writer and for the swapper, writes the shared pages back, gives the blocks back to the depot, and
/// writes what `serial` writes, of whichever legal run it was. The status is as that of `run_one`. For `replay` it waits
/// for threads, and that it returns isn't promised; every other command runs on one thread, and the call returns.
pub fn run_many<R: Threads + Wait + Sync, S: Source, K: Sink, D: Depot>(
    rt: &R,
    alloc: Global,
    words: &[&str],
    ends: &mut CallEnds<S, K, D>,
) -> Status
    // With status 0 or 5 of `serial` or `replay` the trace was served; what every other status means is said too.
    ensures { IsCommandRun Way.Many (texts words.now) (moves S.seen K.seen D.seen ends.old ends.new) result.0 }
{
    let mut kept = ArrayVec::new();
    run_many_and_tell(rt, alloc, words, ends, &mut kept).0
}
