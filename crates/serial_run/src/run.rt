ghost use Rattle.std.specs.Prelude.{◌≡◌, ◌≤◌, ◌++◌, true, IfOk, IsErrOf, List, OnOk};
ghost use Rattle.vm_types.specs.BlockView.{Retired};
ghost use Rattle.vm_types.specs.Configuration.{IsWellFormed};
ghost use Rattle.vm_types.specs.Counts.{Rose};
ghost use Rattle.pager_policy.specs.Serial.{IsSerial};
ghost use Rattle.carried_landings.specs.Moved.{IsSameBut};
ghost use Rattle.serial_run.specs.AtReport.{IsAtReport};
ghost use Rattle.serial_run.specs.Ended.{HasEnded, IsCounted, IsFinished};
ghost use Rattle.serial_run.specs.declared.finished.RunFault.{RunFault};

use crate::finished::{Counted, Finished, RunFault, RunResult};
use crate::to_report::{answer_requests, run_to_report};
use disk_trait::{Block, Depot};
use pfn_report::recount;
use run_blocks::{make_blocks, retire_blocks};
use run_text::Report;
use rundown::rundown;
use std::alloc::Global;
use vm_state::State;
use vm_types::{Config, NoMemory, Page};

/// What is read off a run besides its entries: how many of them stand before the report, the report
/// there, and the shared pages that were left dirty.
#[derive(Debug, Drop)]
pub struct Ending {
    pub at: u64,
    pub report: Report,
    pub dirty: Vec<Page>,
}

/// Ends a state at the report's place: counts the report, and writes the shared pages back.
///
/// # Errors
/// `NoMemory` if out of memory.
pub fn end_state<B: Block>(alloc: Global, state: &mut State<B>) -> Result<Ending, NoMemory>
    requires { IsAtReport B.tells.content state.old.config state.old.past }
    ensures same { OnOk result (IsSameBut state.old state.new) }
    ensures ended { IfOk result (HasEnded B.tells.content state.old.past state.new) }
{
    let at = state.entry_count();
    let report = recount(alloc, state)?;
    let dirty = rundown(alloc, state)?;
    state.run_law();
    Ok(Ending { at, report, dirty })
}

/// Ends a run at the report's place, whose entries are kept: counts the report, writes the shared pages
/// back, and gives each block back to the depot.
///
/// # Errors
/// `NoMemory` if out of memory; then a part of the blocks may have been given back.
pub fn finish_run<D: Depot>(
    alloc: Global,
    mut state: State<D::Block>,
    depot: &mut D,
) -> Result<Finished, NoMemory>
    requires keeps { state.keeps ≡ true }
    requires there { IsAtReport D.Block.tells.content state.config state.past }
    ensures finished { IfOk result (λ f. (taken : List Retired) × ((D.seen depot.new).retired ≡ (D.seen depot.old).retired ++ taken)
        × IsFinished (λ _ past. past ≡ state.past) D.Block.tells state.config taken f) }
    ensures later { (D.seen depot.old).failures ≤ (D.seen depot.new).failures }
{
    let ending = end_state(alloc, &mut state)?;
    let (config, entries, blocks) = state.finish();
    retire_blocks(blocks, depot)?;
    Ok(Finished {
        config,
        entries,
        at: ending.at,
        report: ending.report,
        dirty: ending.dirty,
    })
}

/// Runs a configuration: makes its blocks by a depot, answers its requests one after another, counts the
/// report, writes the shared pages back, and gives each block back to the depot.
///
/// # Errors
/// `NoMemory` if out of memory. `DepotFault` only if the depot's count of faults rose.
pub fn run_serial<D: Depot>(alloc: Global, config: Config, depot: &mut D) -> RunResult<Finished>
    requires formed { IsWellFormed config }
    ensures finished { IfOk result (λ f. (taken : List Retired) × ((D.seen depot.new).retired ≡ (D.seen depot.old).retired ++ taken)
        × IsFinished IsSerial D.Block.tells config taken f) }
    ensures failed { IsErrOf result RunFault.DepotFault → Rose (D.seen depot.old).failures (D.seen depot.new).failures }
    ensures later { (D.seen depot.old).failures ≤ (D.seen depot.new).failures }
{
    let state = run_to_report(alloc, config, depot)?;
    Ok(finish_run(alloc, state, depot)?)
}

/// Runs a configuration as `run_serial` does, and counts the entries in place of keeping them.
///
/// # Errors
/// `NoMemory` if out of memory. `DepotFault` only if the depot's count of faults rose.
pub fn count_serial<D: Depot>(alloc: Global, config: Config, depot: &mut D) -> RunResult<Counted>
    requires formed { IsWellFormed config }
    ensures counted { IfOk result (λ f. (taken : List Retired) × ((D.seen depot.new).retired ≡ (D.seen depot.old).retired ++ taken)
        × IsCounted D.Block.tells config taken f) }
    ensures failed { IsErrOf result RunFault.DepotFault → Rose (D.seen depot.old).failures (D.seen depot.new).failures }
    ensures later { (D.seen depot.old).failures ≤ (D.seen depot.new).failures }
{
    let blocks = make_blocks(alloc, &config, depot)?;
    let mut state = State::start_counting(alloc, config, blocks)?;
    answer_requests(alloc, &mut state)?;
    let ending = end_state(alloc, &mut state)?;
    let dirty = ending.dirty;
    let all = state.entry_count();
    let kinds = state.kinds();
    let (_, _, blocks) = state.finish();
    retire_blocks(blocks, depot)?;
    Ok(Counted { all, kinds, dirty })
}
