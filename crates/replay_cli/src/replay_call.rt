//! The call of a command that runs by threads.

ghost use Rattle.std.specs.Prelude.{◌≡◌, ◌⊎◌, ◌≤◌};
ghost use Rattle.vm_types.specs.Moved.{moved};
ghost use Rattle.vm_types.specs.Configuration.{IsWellFormed};
ghost use Rattle.command_ends.specs.Concludes.{EndsAnswered};
ghost use Rattle.command_ends.specs.Tells.{IsTrace};
ghost use Rattle.command_ends.specs.Wrongs.{IsWrongText};
ghost use Rattle.command_calls.specs.CommandCall.{IsCommandCall, WithWrong};
ghost use Rattle.command_calls.specs.Moves.{HasNoFailure, moves};
ghost use Rattle.run_commands.specs.Headline.{IsRunAnswer, RunTells};
ghost use Rattle.replay_run.specs.Replayed.{HasWorkedAfterAnswers};

use arrayvec::ArrayVec;
use command_calls::CallEnds;
use command_ends::{Status, Wrong, end_fault, end_with, wrong_of};
use disk_trait::Depot;
use outside_io::{Sink, Source};
use pager_laws::runs_are_sound;
use replay_run::run_threads;
use run_text::print_run;
use serial_causes::rundown_is_caused;
use serial_run::RunFault;
use std::alloc::Global;
use std::sync::Wait;
use std::thread::Threads;
use trace_reader::read_trace;
use turn_causes::whole_in_turns_is_caused;
use vm_types::Config;

// Runs a configuration by threads over blocks of the depot, and writes what it did.
fn run_config<R: Threads + Wait + Sync, K: Sink, D: Depot>(
    rt: &R,
    alloc: Global,
    config: Config,
    sink: &mut K,
    depot: &mut D,
) -> Status
    requires formed { IsWellFormed config }
    ensures outcome { EndsAnswered (IsRunAnswer (HasWorkedAfterAnswers config) (moved (D.seen depot.old) (D.seen depot.new)) config)
        (K.seen sink.old) (K.seen sink.new) result.0 }
    ensures depot_later { (D.seen depot.old).failures ≤ (D.seen depot.new).failures }
{
    match run_threads(rt, alloc, config, depot) {
        Ok(finished) => {
            runs_are_sound();
            whole_in_turns_is_caused();
            rundown_is_caused();
            print_run(
                &finished.config,
                &finished.entries,
                finished.at,
                &finished.report,
                &finished.dirty,
                sink,
            )
        }
        Err(RunFault::NoMemory) => end_with(7, sink),
        Err(RunFault::DepotFault) => end_with(6, sink),
    }
}

/// Reads a trace from the source, makes the blocks that it names by the depot, answers its requests by threads, a
/// worker for each process, for the modified page writer and for the swapper, writes the shared pages back, gives the
/// blocks back to the depot, and writes the entry lines, the report, the pages that are left dirty and the status
/// line to the output. What it writes is the text of one legal run; which one it is depends on how the threads ran.
/// The status is 0 if it did that, 2 if the input is no trace, 3 only if a read failed, 4 only if a write failed or
/// took nothing, 5 if shared pages are left dirty, 6 only if the depot failed to make a block, 7 if memory ran out.
/// It answers besides what is wrong with the input, if anything is, and keeps the first 80 bytes of a faulty line in
/// `kept`. It waits for its threads; that it returns isn't promised.
pub fn replay<R: Threads + Wait + Sync, S: Source, K: Sink, D: Depot>(
    rt: &R,
    alloc: Global,
    ends: &mut CallEnds<S, K, D>,
    kept: &mut ArrayVec<u8, 80>,
) -> (Status, Option<Wrong>)
    // A status with the text that goes with it, and what is wrong with the input by that text.
    ensures call { IsCommandCall (WithWrong (RunTells HasWorkedAfterAnswers) result.1)
        (moves S.seen K.seen D.seen ends.old ends.new) result.0.0 }
    // If the input is a trace and nothing fails, it was run, with dirty pages left or with none, or memory ran out.
    ensures complete { IsTrace (S.seen ends.old.source) → HasNoFailure (moves S.seen K.seen D.seen ends.old ends.new)
        → (result.0.0 ≡ 0) ⊎ ((result.0.0 ≡ 5) ⊎ (result.0.0 ≡ 7)) }
    // Of a faulty line the first bytes were kept.
    ensures kept { IsWrongText result.1 (S.seen ends.old.source).left kept.new.items }
{
    match read_trace(alloc, &mut ends.source, kept) {
        Ok(config) => (
            run_config(rt, alloc, config, &mut ends.output, &mut ends.depot),
            None,
        ),
        Err(fault) => (end_fault(fault, &mut ends.output), wrong_of(fault)),
    }
}
