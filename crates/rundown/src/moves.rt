ghost use Rattle.std.specs.Prelude.{◌≡◌, ◌<◌, IfOk, OnErr, length};
ghost use Rattle.std.specs.Option.{option_map};
ghost use Rattle.pager_policy.specs.Cleaning.{evicting};
ghost use Rattle.pager_model.specs.Order.{IsAnswered};
ghost use Rattle.pager_policy.specs.Policy.{move_of};
ghost use Rattle.pager_policy.specs.Rundown.{cleaning_move, later_move};
ghost use Rattle.policy_tables.specs.Rows.{IsByCases};
ghost use Rattle.policy_tables.specs.RundownCases.{rundown_cases};
ghost use Rattle.vm_state.specs.History.{pager};
ghost use Rattle.call_begins.specs.MayBegin.{empty};
ghost use Rattle.serial_laws.specs.Between.{IsBetween};
ghost use Rattle.carried_landings.specs.Moved.{IsSameBut, MovesTo};
ghost use Rattle.rundown.specs.Cleanings.{cleaning_in, control_at};
ghost use Rattle.rundown.specs.Cleans.{CanClean};
ghost use Rattle.rundown.specs.Places.{IsThere, place_as};

use crate::cleaning::Cleaning;
use crate::evictions::clean_at;
use crate::places::{Place, shared_place};
use crate::rounds::{ROUNDS, write_rounds};
use carried_landings::prepare;
use disk_trait::Block;
use vm_state::{Carrier, State};
use vm_types::{NoMemory, Proc};

/// What is made at the next place after this one, where no carrier has failed yet.
fn clean_on<B: Block>(state: &mut State<B>, at: Place, carrier: &mut Carrier<B>) -> Option<Cleaning>
    requires can { CanClean state.old carrier.old }
    requires there { IsThere state.old at }
    ensures carrier { carrier.new ≡ carrier.old }
    ensures moved { MovesTo B.tells.content state.old state.new
        (later_move state.old.config state.old.past (pager state.old) (place_as at)) (option_map control_at result) }
{
    match shared_place(state, at.process, at.slot + 1) {
        Some(next) => clean_at(state, next, false, carrier),
        None => write_rounds(state, ROUNDS, 0, carrier),
    }
}

/// What is made at the first place from a slot of a process (any numbers) on, whose carrier has failed or
/// not, or else at the next one.
fn evict_from<B: Block>(
    state: &mut State<B>,
    p: Proc,
    n: u32,
    failed: bool,
    carrier: &mut Carrier<B>,
) -> Option<Cleaning>
    requires { CanClean state.old carrier.old }
    ensures carrier { carrier.new ≡ carrier.old }
    ensures moved { MovesTo B.tells.content state.old state.new
        (cleaning_move state.old.config state.old.past (pager state.old) (evicting p.0 n failed)) (option_map control_at result) }
{
    match shared_place(state, p, n) {
        Some(at) => match clean_at(state, at, failed, carrier) {
            Some(next) => Some(next),
            None => clean_on(state, at, carrier),
        },
        None => write_rounds(state, ROUNDS, 0, carrier),
    }
}

/// Makes the rundown's next move, between two of which no transfer is open, and says where the rundown
/// is then; none if it is over, and then no entry was made. The moves are the rows of a table,
/// `rundown_cases`. The carrier is the modified page writer's, and has no lifts, before it and afterwards.
///
/// # Errors
/// `NoMemory` if out of memory, and only if there was room for fewer than 64 entries; then no entry was made.
pub fn make_move<B: Block>(
    state: &mut State<B>,
    at: Cleaning,
    carrier: &mut Carrier<B>,
) -> Result<Option<Cleaning>, NoMemory>
    requires between { IsBetween state.old.config state.old.past }
    requires answered { IsAnswered state.old.config state.old.past }
    requires carrier { carrier.old ≡ empty (record { 0 = length state.old.config.procs }) }
    ensures carrier { carrier.new ≡ carrier.old }
    ensures moved { IfOk result (λ goes. MovesTo B.tells.content state.old state.new
        (move_of state.old.config state.old.past (control_at at)) (option_map control_at goes)) }
    ensures by_table { IfOk result (λ goes. IsByCases (rundown_cases state.old.config state.old.past (pager state.old) (cleaning_in at))
        (λ m. MovesTo B.tells.content state.old state.new m (option_map control_at goes))) }
    ensures same { IsSameBut state.old state.new }
    ensures none_made { OnErr result (state.new.past ≡ state.old.past) }
    ensures memory { OnErr result (state.old.spare < 64) }
{
    prepare(state)?;
    match at {
        Cleaning::Evicting {
            process,
            slot,
            failed,
        } => Ok(evict_from(state, process, slot, failed, carrier)),
        Cleaning::Rounds { following, left } => Ok(write_rounds(state, following, left, carrier)),
    }
}
