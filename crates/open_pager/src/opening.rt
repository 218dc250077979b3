//! How a pager is opened.

ghost use Rattle.std.specs.Prelude.{◌≡◌, ◌≤◌, IfOk, IsErrOf};
ghost use Rattle.vm_types.specs.Configuration.{IsWellFormed};
ghost use Rattle.vm_types.specs.Counts.{Rose};
ghost use Rattle.serial_run.specs.declared.finished.RunFault.{RunFault};
ghost use Rattle.open_pager.specs.Open.{IsOpened};

use crate::pager::OpenPager;
use crate::settling::settle;
use disk_trait::Depot;
use run_blocks::make_blocks;
use serial_laws::first_control_fits;
use serial_moves::{Control, Doing};
use serial_run::{RunFault, all_carriers};
use std::alloc::Global;
use vm_state::State;
use vm_types::Config;

/// Opens a pager on a configuration: makes its blocks by a depot, and answers the requests of its body, if it
/// has any. No block is given back.
///
/// # Errors
/// `NoMemory` if out of memory. `DepotFault` only if the depot's count of faults rose.
pub fn open<D: Depot>(
    alloc: Global,
    config: Config,
    depot: &mut D,
) -> Result<OpenPager<D::Block>, RunFault>
    requires formed { IsWellFormed config }
    ensures opened { IfOk result (IsOpened config) }
    ensures retired { (D.seen depot.new).retired ≡ (D.seen depot.old).retired }
    ensures failed { IsErrOf result RunFault.DepotFault → Rose (D.seen depot.old).failures (D.seen depot.new).failures }
    ensures later { (D.seen depot.old).failures ≤ (D.seen depot.new).failures }
{
    first_control_fits();
    let blocks = make_blocks(alloc, &config, depot)?;
    let mut state = State::start(alloc, config, blocks)?;
    state.run_law();
    let mut carriers = all_carriers(alloc, &state)?;
    let first = Control {
        doing: Doing::Asking,
        leaving: None,
    };
    let control = settle(&mut state, first, &mut carriers)?;
    Ok(OpenPager {
        state,
        control,
        carriers,
        taken: 0,
        stopped: false,
    })
}
