ghost use Rattle.std.specs.Prelude.{◌≡◌, ◌⊎◌, ◌≤◌, ◌++◌, List, None, length};
ghost use Rattle.vm_journal.specs.declared.entry.Entry.{Entry};
ghost use Rattle.run_words.specs.Text.{status_line};
ghost use Rattle.vm_types.specs.Moved.{moved};
ghost use Rattle.command_ends.specs.Concludes.{EndsAnswered};
ghost use Rattle.command_ends.specs.Ends.{Ends};
ghost use Rattle.command_calls.specs.CommandCall.{IsCommandCall, WithWrong};
ghost use Rattle.command_calls.specs.Moves.{HasNoFailure, moves};
ghost use Rattle.run_text.specs.Parts.{run_status};
ghost use Rattle.run_record.specs.Tallies.{tallies_of};
ghost use Rattle.run_commands.specs.MakeText.{make_lines};
ghost use Rattle.run_commands.specs.MakeAnswer.{IsMakeAnswer, MakeTells};
ghost use Rattle.run_commands.specs.MakeLine.{IsMakeable};

use crate::make::Make;
use crate::summary::print_summary;
use command_calls::CallEnds;
use command_ends::{Status, end_with};
use disk_trait::Depot;
use outside_io::{Sink, Source};
use pager_laws::runs_are_sound;
use serial_causes::whole_serial_is_caused;
use serial_run::{Counted, RunFault, count_serial};
use std::alloc::Global;
use trace_maker::make_trace;
use vm_types::Page;

// The status of a run that left these pages dirty.
fn status_of(dirty: &[Page]) -> u8
    ensures { result ≡ run_status dirty.now }
{
    if dirty.is_empty() { 0 } else { 5 }
}

// Writes the counts and the status.
fn end_made<K: Sink>(make: Make, run: &Counted, sink: &mut K) -> Status
    ensures { (entries : List Entry) → run.now.all ≡ length entries → run.now.kinds ≡ tallies_of entries → Ends (K.seen sink.old) (K.seen sink.new) (run_status ((run.now).dirty).items)
        (make_lines make entries ++ status_line (run_status ((run.now).dirty).items)) result.0 }
{
    match print_summary(make, run.all, &run.kinds, sink) {
        Ok(()) => end_with(status_of(&run.dirty), sink),
        Err(_) => Status(4),
    }
}

// Makes a trace, runs it over blocks of the depot, and writes how many entries of each kind its run has.
fn run_made<K: Sink, D: Depot>(alloc: Global, make: Make, sink: &mut K, depot: &mut D) -> Status
    requires { IsMakeable make }
    ensures outcome { EndsAnswered (IsMakeAnswer make (moved (D.seen depot.old) (D.seen depot.new)))
        (K.seen sink.old) (K.seen sink.new) result.0 }
    ensures depot_later { (D.seen depot.old).failures ≤ (D.seen depot.new).failures }
{
    let Ok(config) = make_trace(alloc, u64::from(make.seed), make.procs, make.refs) else {
        return end_with(7, sink);
    };
    match count_serial(alloc, config, depot) {
        Ok(run) => {
            runs_are_sound();
            whole_serial_is_caused();
            end_made(make, &run, sink)
        }
        Err(RunFault::NoMemory) => end_with(7, sink),
        Err(RunFault::DepotFault) => end_with(6, sink),
    }
}

/// Reads nothing, makes a trace, runs it over blocks of the depot as `serial` does, and writes to the output how many
/// entries of each kind the run has, and the status line. The status is 0 if it did that, 4 only if a write failed or
/// took nothing, 5 if shared pages are left dirty, 6 only if the depot failed to make a block, 7 if memory ran out.
pub fn run_make<S: Source, K: Sink, D: Depot>(
    alloc: Global,
    make: Make,
    ends: &mut CallEnds<S, K, D>,
) -> Status
    requires { IsMakeable make }
    // A status with the text that goes with it, and nothing is wrong with the input.
    ensures call { IsCommandCall (WithWrong (λ source depot. MakeTells make depot) None)
        (moves S.seen K.seen D.seen ends.old ends.new) result.0 }
    // If nothing fails, the made trace was run, with dirty pages left or with none, or memory ran out.
    ensures complete { HasNoFailure (moves S.seen K.seen D.seen ends.old ends.new)
        → (result.0 ≡ 0) ⊎ ((result.0 ≡ 5) ⊎ (result.0 ≡ 7)) }
    ensures no_read { ends.new.source ≡ ends.old.source }
{
    run_made(alloc, make, &mut ends.output, &mut ends.depot)
}
