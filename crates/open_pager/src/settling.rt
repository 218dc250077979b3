//! The serial policy's moves, until it rests.

ghost use Rattle.std.specs.Prelude.{◌≡◌, IfOk, OnOk};
ghost use Rattle.carried_landings.specs.Moved.{IsSameBut};
ghost use Rattle.serial_moves.specs.Carriers.{AreIdle};
ghost use Rattle.serial_moves.specs.Controls.{control_in};
ghost use Rattle.open_pager.specs.Open.{HasMoved, IsOpen, IsWaiting};

use disk_trait::Block;
use serial_moves::{Control, make_move};
use vm_state::{Carrier, State};
use vm_types::NoMemory;

/// Makes the serial policy's moves from where it is until it rests, and says where. The carriers are those of
/// all seats, and have no lifts, before it and afterwards.
///
/// # Errors
/// `NoMemory` if out of memory.
pub fn settle<B: Block>(
    state: &mut State<B>,
    at: Control,
    carriers: &mut [Carrier<B>],
) -> Result<Control, NoMemory>
    requires open_there { IsOpen state.old (control_in at) }
    requires carriers { AreIdle state.old carriers.old }
    ensures same { OnOk result (IsSameBut state.old state.new) }
    ensures moved { IfOk result (λ next. HasMoved state.new.config state.old.past (control_in at) state.new.past (control_in next)) }
    ensures waits { IfOk result (λ next. IsWaiting state.new (control_in next)) }
    ensures carriers { OnOk result (carriers.new ≡ carriers.old) }
{
    let mut control = at;
    'moves: loop {
        let step = make_move(state, control, carriers)?;
        match step {
            Some(next) => {
                state.run_law();
                control = next;
            }
            None => return Ok(control),
        }
    }
}
