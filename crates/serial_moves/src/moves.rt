ghost use Rattle.std.specs.Prelude.{◌≡◌, ◌<◌, IfOk, OnErr};
ghost use Rattle.pager_policy.specs.Policy.{move_of};
ghost use Rattle.serial_laws.specs.Between.{IsBetween};
ghost use Rattle.serial_laws.specs.Controlled.{IsControlled};
ghost use Rattle.serial_moves.specs.Carriers.{AreIdle};
ghost use Rattle.serial_moves.specs.Controls.{ComesTo, Moves, MovesByTable, control_in};
ghost use Rattle.carried_landings.specs.Moved.{IsSteady};

use crate::answers::{ask_next, free, save};
use crate::control::{AfterAnswer, Control, Doing};
use carried_landings::prepare;
use disk_trait::Block;
use vm_state::{Carrier, State};
use vm_types::NoMemory;

/// Makes the serial policy's next move, between two of which no transfer is open, and says where the
/// policy goes on; none if it rests, and then no entry was made. What it makes is the first row that holds
/// of tables, `move_cases`. The carriers are those of all seats, and have no lifts, before it and afterwards.
///
/// # Errors
/// `NoMemory` if out of memory: room for fewer than 64 entries is left then.
pub fn make_move<B: Block>(
    state: &mut State<B>,
    c: Control,
    carriers: &mut [Carrier<B>],
) -> Result<Option<Control>, NoMemory>
    requires between { IsBetween state.old.config state.old.past }
    requires fits { IsControlled state.old.config state.old.past (control_in c) }
    requires carriers { AreIdle state.old carriers.old }
    ensures carriers { carriers.new ≡ carriers.old }
    ensures moved { IfOk result (Moves B.tells.content state.old state.new (move_of state.old.config state.old.past (control_in c))) }
    ensures by_table { IfOk result (MovesByTable B.tells.content state.old state.new (control_in c)) }
    ensures memory { OnErr result (state.new.spare < 64) }
{
    prepare(state)?;
    match after_answer(state, c, carriers)? {
        AfterAnswer::Made(next) => return Ok(next),
        AfterAnswer::Over(leaving) => return ask_next(state, leaving, carriers),
    }
}

/// The work after an answer, if the policy is in it.
///
/// # Errors
/// `NoMemory` if out of memory: room for fewer than 64 entries is left then.
#[inline(always)]
fn after_answer<B: Block>(
    state: &mut State<B>,
    c: Control,
    carriers: &mut [Carrier<B>],
) -> Result<AfterAnswer, NoMemory>
    requires steady { IsSteady state.old }
    requires fits { IsControlled state.old.config state.old.past (control_in c) }
    requires carriers { AreIdle state.old carriers.old }
    ensures carriers { carriers.new ≡ carriers.old }
    ensures comes { IfOk result (ComesTo B.tells.content state.old state.new (move_of state.old.config state.old.past (control_in c))) }
    ensures memory { OnErr result (state.new.spare < 64) }
{
    match c.doing {
        Doing::Asking => Ok(AfterAnswer::Over(c.leaving)),
        Doing::Saving { begun, process } => save(state, begun, process, carriers),
        Doing::Freeing { begun, process } => free(state, c.leaving, begun, process, carriers),
    }
}
