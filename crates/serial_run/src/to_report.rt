//! A run up to the report's place.

ghost use Rattle.std.specs.Prelude.{◌≡◌, ◌≤◌, [], IfOk, IsErrOf, OnOk};
ghost use Rattle.vm_types.specs.Configuration.{IsWellFormed};
ghost use Rattle.vm_types.specs.Counts.{Rose};
ghost use Rattle.pager_policy.specs.Serial.{IsSerial};
ghost use Rattle.carried_landings.specs.Moved.{IsSameBut};
ghost use Rattle.serial_run.specs.AtReport.{IsAtReport, IsReportReached};
ghost use Rattle.serial_run.specs.declared.finished.RunFault.{RunFault};

use crate::body::run_body;
use crate::carriers::all_carriers;
use crate::finished::RunFault;
use disk_trait::{Block, Depot};
use run_blocks::make_blocks;
use std::alloc::Global;
use vm_state::State;
use vm_types::{Config, NoMemory};

/// Room for so many entries of each request is made at once.
const ENTRIES_PER_REQUEST: u32 = 5;

/// Makes room at once for the entries of all requests, so that the journal isn't copied as it grows. If
/// there is too little memory for that, the moves ask for room as they go.
fn reserve_answers<B: Block>(state: &mut State<B>)
    ensures { state.new ≡ record state.old { spare = (state.new).spare } }
{
    let requests = state.config().body.len();
    let _ = state.reserve(ENTRIES_PER_REQUEST * requests.min(1 << 24) as u32);
}

/// Answers the requests of a state from its first entry on.
///
/// # Errors
/// `NoMemory` if out of memory.
pub fn answer_requests<B: Block>(alloc: Global, state: &mut State<B>) -> Result<(), NoMemory>
    requires { state.old.past ≡ [] }
    ensures same { OnOk result (IsSameBut state.old state.new) }
    ensures there { OnOk result (IsAtReport B.tells.content state.new.config state.new.past) }
    ensures serial { OnOk result (IsSerial state.new.config state.new.past) }
{
    state.run_law();
    reserve_answers(state);
    let mut carriers = all_carriers(alloc, state)?;
    run_body(state, &mut carriers)?;
    Ok(())
}

/// Runs a configuration up to the report's place: makes its blocks by a depot, and answers its requests
/// one after another, with the work that follows each answer. No block is given back.
///
/// # Errors
/// `NoMemory` if out of memory. `DepotFault` only if the depot's count of faults rose.
pub fn run_to_report<D: Depot>(
    alloc: Global,
    config: Config,
    depot: &mut D,
) -> Result<State<D::Block>, RunFault>
    requires formed { IsWellFormed config }
    ensures reached { IfOk result (IsReportReached D.Block.tells.content config) }
    ensures retired { (D.seen depot.new).retired ≡ (D.seen depot.old).retired }
    ensures failed { IsErrOf result RunFault.DepotFault → Rose (D.seen depot.old).failures (D.seen depot.new).failures }
    ensures later { (D.seen depot.old).failures ≤ (D.seen depot.new).failures }
{
    let blocks = make_blocks(alloc, &config, depot)?;
    let mut state = State::start(alloc, config, blocks)?;
    answer_requests(alloc, &mut state)?;
    Ok(state)
}
