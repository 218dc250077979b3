ghost use Rattle.std.specs.Prelude.{◌≡◌, ◌⊎◌, ◌≤◌, List, IfOk, IsErrOf};
ghost use Rattle.vm_journal.specs.declared.entry.Entry.{Entry};
ghost use Rattle.vm_types.specs.Moved.{moved};
ghost use Rattle.vm_types.specs.Configuration.{IsWellFormed};
ghost use Rattle.vm_types.specs.Counts.{Rose};
ghost use Rattle.dump_bytes.specs.Bounds.{IsDump};
ghost use Rattle.dump_bytes.specs.Dumped.{dumped};
ghost use Rattle.dump_bytes.specs.Text.{dump_text};
ghost use Rattle.dump_laws.specs.DumpAfter.{dump_after};
ghost use Rattle.command_ends.specs.Concludes.{EndsAnswered};
ghost use Rattle.command_ends.specs.Ends.{Ends};
ghost use Rattle.command_ends.specs.Tells.{IsTrace};
ghost use Rattle.command_ends.specs.Wrongs.{IsWrongText};
ghost use Rattle.command_calls.specs.CommandCall.{IsCommandCall, WithWrong};
ghost use Rattle.command_calls.specs.Moves.{HasNoFailure, moves};
ghost use Rattle.serial_run.specs.declared.finished.RunFault.{RunFault};
ghost use Rattle.run_commands.specs.DumpAnswer.{DumpTells, IsDumpAnswer, IsRunToReport};

use arrayvec::ArrayVec;
use command_calls::CallEnds;
use command_ends::{Status, Wrong, end_fault, end_with, wrong_of};
use disk_trait::Depot;
use dump_bytes::{Dump, write_dump};
use dump_laws::dumps_of_runs_are_sound;
use outside_io::{Sink, Source};
use pager_laws::runs_are_sound;
use serial_run::{RunFault, give_back, run_to_report};
use state_dump::dump_of;
use std::alloc::Global;
use trace_reader::read_trace;
use vm_types::Config;

// Runs a configuration up to the report's place over blocks of the depot, gives the blocks back, and
// answers the dump of the state there.
//
// # Errors
// `NoMemory` if out of memory. `DepotFault` only if the depot's count of faults rose.
fn dumped_run<D: Depot>(alloc: Global, config: Config, depot: &mut D) -> Result<Dump, RunFault>
    requires formed { IsWellFormed config }
    ensures run { IfOk result (λ dump. (past : List Entry) × IsRunToReport (moved (D.seen depot.old) (D.seen depot.new)) config past
        × (dumped dump ≡ dump_after config past)) }
    ensures bounds { IfOk result (λ dump. IsDump (dumped dump)) }
    ensures failed { IsErrOf result RunFault.DepotFault → Rose (D.seen depot.old).failures (D.seen depot.new).failures }
    ensures later { (D.seen depot.old).failures ≤ (D.seen depot.new).failures }
{
    let state = run_to_report(alloc, config, depot)?;
    runs_are_sound();
    let dump = dump_of(alloc, &state)?;
    give_back(state, depot)?;
    Ok(dump)
}

// Writes a dump's bytes, and ends with status 0 without a line that says so.
fn end_dump<K: Sink>(dump: &Dump, sink: &mut K) -> Status
    requires { IsDump (dumped dump.now) }
    ensures { Ends (K.seen sink.old) (K.seen sink.new) 0 (dump_text (dumped dump.now)) result.0 }
{
    match write_dump(dump, sink) {
        Ok(()) => Status(0),
        Err(_) => Status(4),
    }
}

// Runs a configuration up to the report's place over blocks of the depot, and writes the dump of the
// state there.
fn dump_config<K: Sink, D: Depot>(
    alloc: Global,
    config: Config,
    sink: &mut K,
    depot: &mut D,
) -> Status
    requires formed { IsWellFormed config }
    ensures outcome { EndsAnswered (IsDumpAnswer (moved (D.seen depot.old) (D.seen depot.new)) config)
        (K.seen sink.old) (K.seen sink.new) result.0 }
    ensures depot_later { (D.seen depot.old).failures ≤ (D.seen depot.new).failures }
{
    match dumped_run(alloc, config, depot) {
        Ok(dump) => {
            dumps_of_runs_are_sound();
            end_dump(&dump, sink)
        }
        Err(RunFault::NoMemory) => end_with(7, sink),
        Err(RunFault::DepotFault) => end_with(6, sink),
    }
}

/// Reads a trace from the source, makes the blocks that it names by the depot, answers its requests as `serial` does,
/// gives the blocks back to the depot, and writes to the output the bytes of the dump of the state after the last
/// request, without a status line. The status is 0 if it did that, 2 if the input is no trace, 3 only if a read failed,
/// 4 only if a write failed or took nothing, 6 only if the depot failed to make a block, 7 if memory ran out. It
/// answers besides what is wrong with the input, if anything is, and keeps the first 80 bytes of a faulty line in
/// `kept`.
pub fn dump<S: Source, K: Sink, D: Depot>(
    alloc: Global,
    ends: &mut CallEnds<S, K, D>,
    kept: &mut ArrayVec<u8, 80>,
) -> (Status, Option<Wrong>)
    // A status with the text that goes with it, and what is wrong with the input by that text.
    ensures call { IsCommandCall (WithWrong DumpTells result.1)
        (moves S.seen K.seen D.seen ends.old ends.new) result.0.0 }
    // If the input is a trace and nothing fails, the status is 0, or memory ran out.
    ensures complete { IsTrace (S.seen ends.old.source) → HasNoFailure (moves S.seen K.seen D.seen ends.old ends.new)
        → (result.0.0 ≡ 0) ⊎ (result.0.0 ≡ 7) }
    // Of a faulty line the first bytes were kept.
    ensures kept { IsWrongText result.1 (S.seen ends.old.source).left kept.new.items }
{
    match read_trace(alloc, &mut ends.source, kept) {
        Ok(config) => (
            dump_config(alloc, config, &mut ends.output, &mut ends.depot),
            None,
        ),
        Err(fault) => (end_fault(fault, &mut ends.output), wrong_of(fault)),
    }
}
