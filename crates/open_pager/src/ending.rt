//! How a pager is finished or closed.

ghost use Rattle.std.specs.Prelude.{◌≡◌, ◌≤◌, ◌++◌, IfOk, List, OnOk};
ghost use Rattle.vm_types.specs.BlockView.{Retired};
ghost use Rattle.pager_model.specs.Asked.{IsAsked};
ghost use Rattle.pager_policy.specs.Serial.{IsSerial};
ghost use Rattle.serial_run.specs.Ended.{IsFinished};

use crate::pager::OpenPager;
use disk_trait::Depot;
use serial_run::{Finished, finish_run, give_back};
use std::alloc::Global;
use vm_types::NoMemory;

/// Finishes a pager as a serial run ends: counts the report, writes the shared pages back, and gives each
/// block back to the depot.
///
/// # Errors
/// `NoMemory` if out of memory, or if the pager has stopped; then a part of the blocks may have been given
/// back.
pub fn finish<D: Depot>(
    alloc: Global,
    pager: OpenPager<D::Block>,
    depot: &mut D,
) -> Result<Finished, NoMemory>
    ensures finished { IfOk result (λ f. (taken : List Retired) × ((D.seen depot.new).retired ≡ (D.seen depot.old).retired ++ taken)
        × IsFinished IsSerial D.Block.tells pager.history.config taken f) }
    ensures later { (D.seen depot.old).failures ≤ (D.seen depot.new).failures }
{
    let OpenPager { state, stopped, .. } = pager;
    if stopped {
        return Err(NoMemory);
    }
    state.run_law();
    Ok(finish_run(alloc, state, depot)?)
}

/// Closes a pager with no rundown: gives each block back to the depot, once, and counted.
///
/// # Errors
/// `NoMemory` if out of memory, or if the pager has stopped; then a part of the blocks may have been given
/// back.
#[tactic(auto, using(crate::proofs::OpenRuns::landed_there))]
pub fn close<D: Depot>(pager: OpenPager<D::Block>, depot: &mut D) -> Result<(), NoMemory>
    ensures asked { OnOk result ((taken : List Retired) × ((D.seen depot.new).retired ≡ (D.seen depot.old).retired ++ taken)
        × IsAsked D.Block.tells.plan pager.history.config pager.history.past taken) }
    ensures later { (D.seen depot.old).failures ≤ (D.seen depot.new).failures }
{
    let OpenPager { state, stopped, .. } = pager;
    if stopped {
        return Err(NoMemory);
    }
    give_back(state, depot)?;
    Ok(())
}
