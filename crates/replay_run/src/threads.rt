ghost use Rattle.std.specs.Prelude.{◌≡◌, ◌≤◌, ◌++◌, IfOk, IsErrOf, List};
ghost use Rattle.vm_types.specs.BlockView.{Retired};
ghost use Rattle.vm_types.specs.Configuration.{IsWellFormed};
ghost use Rattle.vm_types.specs.Counts.{Rose};
ghost use Rattle.serial_run.specs.Ended.{IsFinished};
ghost use Rattle.serial_run.specs.declared.finished.RunFault.{RunFault};
ghost use Rattle.replay_run.specs.Replayed.{HasWorkedAfterAnswers};

use crate::playing::play;
use disk_trait::Depot;
use run_blocks::make_blocks;
use serial_run::{Finished, RunFault, finish_run};
use std::alloc::Global;
use std::sync::Wait;
use std::thread::Threads;
use vm_state::State;
use vm_types::Config;

/// Runs a configuration by threads: makes its blocks by a depot, lets a worker for each process, the
/// modified page writer and the swapper work until every request is answered, counts the report, writes
/// the shared pages back, and gives each block back to the depot. A worker has a thread of its own where
/// one can be had.
///
/// # Errors
/// `NoMemory` if memory ran out. `DepotFault` only if the depot's count of faults rose.
pub fn run_threads<R: Threads + Wait + Sync, D: Depot>(
    rt: &R,
    alloc: Global,
    config: Config,
    depot: &mut D,
) -> Result<Finished, RunFault>
    requires formed { IsWellFormed config }
    ensures finished { IfOk result (λ f. (taken : List Retired) × ((D.seen depot.new).retired ≡ (D.seen depot.old).retired ++ taken)
        × IsFinished HasWorkedAfterAnswers D.Block.tells config taken f) }
    ensures failed { IsErrOf result RunFault.DepotFault → Rose (D.seen depot.old).failures (D.seen depot.new).failures }
    ensures later { (D.seen depot.old).failures ≤ (D.seen depot.new).failures }
{
    let blocks = make_blocks(alloc, &config, depot)?;
    let first = State::start(alloc, config, blocks)?;
    let state = play(rt, alloc, first)?;
    Ok(finish_run(alloc, state, depot)?)
}
