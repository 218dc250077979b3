//! What the program answers and writes on a trace.

ghost use Rattle.std.specs.Prelude.{[], ◌∷◌, codes, IfOk};
ghost use Rattle.vm_types.specs.Moved.{Moved, moved};
ghost use Rattle.disk_trait.specs.DepotView.{DepotView};
ghost use Rattle.replay_cli.specs.Commands.{texts};
ghost use Rattle.program_runs.specs.Runs.{IsRun};

use command_calls::CallEnds;
use disk_trait::{Depot, MemoryDepot};
use outside_io::{MemorySink, MemorySource};
use replay_cli::{Status, run_one};
use std::alloc::Global;
use vm_types::NoMemory;

/// What the program answers and writes over a depot, which is given back, with a source and a sink whose calls of these
/// numbers, counted from 1, fail or take nothing.
fn outcome_over(
    alloc: Global,
    words: &[&str],
    text: &[u8],
    fails: [&[u32]; 3],
    depot: MemoryDepot,
) -> Result<(Status, Vec<u8>, MemoryDepot), NoMemory>
    ensures { IfOk result (λ run. IsRun (texts words.now) text.now (moved (⟦<MemoryDepot as Depot>⟧.seen depot)
        (⟦<MemoryDepot as Depot>⟧.seen run.2)) run.0.0 run.1.items) }
{
    let bytes = Vec::from_slice(alloc, text)?;
    let source = MemorySource::new(bytes, Vec::from_slice(alloc, fails[0])?);
    let write_fails = Vec::from_slice(alloc, fails[1])?;
    let write_stalls = Vec::from_slice(alloc, fails[2])?;
    let output = MemorySink::new(alloc, 100_000, write_fails, write_stalls)?;
    let mut ends = CallEnds {
        source,
        output,
        depot,
    };
    let status = run_one(alloc, words, &mut ends);
    let written = Vec::from_slice(alloc, ends.output.taken())?;
    Ok((status, written, ends.depot))
}

/// What the program answers and writes, at most 100,000 bytes, when it is called with these words and
/// reads this text. The calls of these numbers, counted from 1, fail: reads of the source, calls of the
/// sink, and makes of the depot; the writes of the numbers in `write_stalls` take nothing.
///
/// # Errors
/// `NoMemory` if memory ran out for the text, for what is written, or for the numbers.
pub fn outcome(
    alloc: Global,
    words: &[&str],
    text: &[u8],
    read_fails: &[u32],
    write_fails: &[u32],
    write_stalls: &[u32],
    make_fails: &[u32],
) -> Result<(Status, Vec<u8>), NoMemory>
    ensures { IfOk result (λ run. (depot : Moved DepotView) × IsRun (texts words.now) text.now depot run.0.0 run.1.items) }
{
    let depot = MemoryDepot::new(alloc, Vec::from_slice(alloc, make_fails)?);
    let run = outcome_over(
        alloc,
        words,
        text,
        [read_fails, write_fails, write_stalls],
        depot,
    )?;
    Ok((run.0, run.1))
}

/// What `serial` answers and writes, at most 100,000 bytes, over a depot, which is given back, with a source and a sink
/// that don't fail.
///
/// # Errors
/// `NoMemory` if memory ran out for the text or for what is written.
pub fn serial_over(
    alloc: Global,
    text: &[u8],
    depot: MemoryDepot,
) -> Result<(Status, Vec<u8>, MemoryDepot), NoMemory>
    ensures { IfOk result (λ run. IsRun (codes "serial" ∷ []) text.now (moved (⟦<MemoryDepot as Depot>⟧.seen depot)
        (⟦<MemoryDepot as Depot>⟧.seen run.2)) run.0.0 run.1.items) }
{
    outcome_over(alloc, &["serial"], text, [&[], &[], &[]], depot)
}

/// What `serial` answers and writes, at most 100,000 bytes, if nothing outside fails but the blocks at
/// their calls.
///
/// # Errors
/// `NoMemory` if memory ran out for the text or for what is written.
pub fn serial(alloc: Global, text: &[u8]) -> Result<(Status, Vec<u8>), NoMemory>
    ensures { IfOk result (λ run. (depot : Moved DepotView) × IsRun (codes "serial" ∷ []) text.now depot run.0.0 run.1.items) }
{
    outcome(alloc, &["serial"], text, &[], &[], &[], &[])
}
