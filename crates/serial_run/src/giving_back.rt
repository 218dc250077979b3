//! The end of a state whose run goes on no more.

ghost use Rattle.std.specs.Prelude.{◌≡◌, ◌≤◌, ◌++◌, [], List, OnOk};
ghost use Rattle.vm_types.specs.BlockView.{Retired};
ghost use Rattle.pager_model.specs.Asked.{IsAsked};
ghost use Rattle.pager_model.specs.Flights.{open_flights};

use disk_trait::Depot;
use run_blocks::retire_blocks;
use vm_state::State;
use vm_types::NoMemory;

/// Gives each block of a state back to the depot, once no transfer is open: each block of the
/// configuration once, and counted.
///
/// # Errors
/// `NoMemory` if out of memory; then a part of the blocks was given back.
pub fn give_back<D: Depot>(state: State<D::Block>, depot: &mut D) -> Result<(), NoMemory>
    requires { open_flights state.past ≡ [] }
    ensures asked { OnOk result ((taken : List Retired) × ((D.seen depot.new).retired ≡ (D.seen depot.old).retired ++ taken)
        × IsAsked D.Block.tells.plan state.config state.past taken) }
    ensures later { (D.seen depot.old).failures ≤ (D.seen depot.new).failures }
{
    let (_, _, blocks) = state.finish();
    retire_blocks(blocks, depot)?;
    Ok(())
}
