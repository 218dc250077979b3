//! The call on one thread.

ghost use Rattle.std.specs.Prelude.{◌≡◌, ◌≢◌, ℕ, List};
ghost use Rattle.command_ends.specs.Concludes.{HasTold};
ghost use Rattle.command_ends.specs.Wrongs.{IsWrong, IsWrongText};
ghost use Rattle.command_calls.specs.CommandCall.{IsCommandCall, WithWrong};
ghost use Rattle.command_calls.specs.Moves.{moves};
ghost use Rattle.replay_cli.specs.CommandRun.{IsCommandRun};
ghost use Rattle.replay_cli.specs.Commands.{Asks, HasNumbersInRange, Told, texts};
ghost use Rattle.replay_cli.specs.declared.ways.Way.{Way};

use crate::words::{Command, command_of};
use arrayvec::ArrayVec;
use check_command::check;
use command_calls::CallEnds;
use command_ends::{Status, Wrong, end_with};
use disk_trait::Depot;
use outside_io::{Sink, Source};
use run_commands::{dump, run_make, serial};
use show_command::show_dump;
use std::alloc::Global;
use study_command::study_trace;

/// Runs a command on one thread; `replay` is none there, and ends with status 1.
pub(crate) fn run_alone<S: Source, K: Sink, D: Depot>(
    alloc: Global,
    command: Command,
    ends: &mut CallEnds<S, K, D>,
    kept: &mut ArrayVec<u8, 80>,
) -> (Status, Option<Wrong>)
    requires numbers { HasNumbersInRange command }
    ensures call { (words : List (List ℕ)) → Asks words command
        → IsCommandCall (WithWrong (Told Way.One words) result.1) (moves S.seen K.seen D.seen ends.old ends.new) result.0.0 }
    ensures kept { IsWrongText result.1 (S.seen ends.old.source).left kept.new.items }
{
    match command {
        Command::Serial => serial(alloc, ends, kept),
        Command::Replay => (end_with(1, &mut ends.output), None),
        Command::Study(study) => study_trace(alloc, study, ends, kept),
        Command::Make(make) => (run_make(alloc, make, ends), None),
        Command::Check => check(alloc, ends, kept),
        Command::Dump => dump(alloc, ends, kept),
        Command::Show => show_dump(alloc, ends),
    }
}

/// As `run_one`, and answers besides what is wrong with the input, if anything is: the first faulty line of a trace with
/// the first rule that it breaks, that a trace is unfinished, the first line of a log that isn't legal, that a log is too
/// long, or after how many bytes an input is no dump. The first 80 bytes of a faulty line are kept in `kept`.
pub fn run_one_and_tell<S: Source, K: Sink, D: Depot>(
    alloc: Global,
    words: &[&str],
    ends: &mut CallEnds<S, K, D>,
    kept: &mut ArrayVec<u8, 80>,
) -> (Status, Option<Wrong>)
    // With status 0 or 5 of `serial` the trace was served; what every other status means is said too.
    ensures run { IsCommandRun Way.One (texts words.now) (moves S.seen K.seen D.seen ends.old ends.new) result.0.0 }
    // With every status but 4 the text that was written says the same of the input.
    ensures wrong { result.0.0 ≢ 4 → HasTold (IsWrong result.1) (K.seen ends.old.output) (K.seen ends.new.output) result.0.0 }
    // Of a faulty line the first bytes were kept.
    ensures kept { IsWrongText result.1 (S.seen ends.old.source).left kept.new.items }
{
    match command_of(alloc, words) {
        Err(_) => (end_with(7, &mut ends.output), None),
        Ok(None) => (end_with(1, &mut ends.output), None),
        Ok(Some(command)) => run_alone(alloc, command, ends, kept),
    }
}

/// Runs the command for which the words ask. `serial` reads a trace from the source, makes the blocks
/// that it names by the depot, answers its requests in order, writes the shared pages back, gives the
/// blocks back to the depot, and writes the entry lines, the report, the pages that are left dirty and
/// the status line to the output. `study`, with `--process` and `--frames`, reads a trace, runs nothing,
/// and writes what the references of the process cost with so many frames. `make`, with `--seed`,
/// `--procs` and `--refs`, reads nothing, makes a trace and runs it as `serial` does, and writes how
/// many entries of each kind the run has. `check` reads a trace and behind a line `LOG` a log, runs
/// nothing, and writes whether the log is legal, or which of its lines is the first that isn't. `dump`
/// reads a trace, answers its requests as `serial` does, gives the blocks back to the depot, and writes the
/// bytes of a dump of the state after the last request, without a status line. `show` reads a dump, runs
/// nothing, and writes what it holds, and each of its counts that a recount doesn't give. But for a dump each
/// write of a whole text is of whole lines. The status is 0 if the command did that, 1 if the words are no command
/// line or ask for `replay`, 2 if the input is no trace or no dump, or a log is too long, 3 only if a read failed, 4 only
/// if a write failed or took nothing, 5 if shared pages are left dirty, 6 only if the depot failed to make a block, 7 if
/// memory ran out, 8 if a line of a log isn't legal.
pub fn run_one<S: Source, K: Sink, D: Depot>(
    alloc: Global,
    words: &[&str],
    ends: &mut CallEnds<S, K, D>,
) -> Status
    // With status 0 or 5 of `serial` the trace was served; what every other status means is said too.
    ensures { IsCommandRun Way.One (texts words.now) (moves S.seen K.seen D.seen ends.old ends.new) result.0 }
{
    let mut kept = ArrayVec::new();
    run_one_and_tell(alloc, words, ends, &mut kept).0
}
