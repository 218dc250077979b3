ghost use Rattle.std.specs.Prelude.{◌≡◌, [], true, IfOk, OnOk, length};
ghost use Rattle.vm_types.specs.Configuration.{IsWellFormed};
ghost use Rattle.pager_policy.specs.Serial.{IsSerial};
ghost use Rattle.pager_model.specs.Spoken.{IsRight};
ghost use Rattle.serial_laws.specs.Between.{IsBetween};
ghost use Rattle.carried_landings.specs.Moved.{IsSameBut};
ghost use Rattle.serial_moves.specs.Carriers.{AreIdle};

use disk_trait::Block;
use serial_laws::first_control_fits;
use serial_moves::{Control, Doing, make_move};
use vm_state::{Carrier, State};
use vm_types::NoMemory;

/// Answers every request, in the order of the body, with the work that follows each answer, from the
/// first entry on.
///
/// # Errors
/// `NoMemory` if out of memory.
pub fn run_body<B: Block>(state: &mut State<B>, carriers: &mut [Carrier<B>]) -> Result<(), NoMemory>
    requires formed { IsWellFormed state.old.config }
    requires first { state.old.past ≡ [] }
    requires carriers { AreIdle state.old carriers.old }
    ensures same { OnOk result (IsSameBut state.old state.new) }
    ensures between { OnOk result (IsBetween state.new.config state.new.past) }
    ensures serial { OnOk result (IsSerial state.new.config state.new.past) }
    ensures right { OnOk result (B.tells.content ≡ true → IsRight state.new.config state.new.past) }
{
    first_control_fits();
    let mut control = Control {
        doing: Doing::Asking,
        leaving: None,
    };
    'moves: loop {
        let step = make_move(state, control, carriers)?;
        match step {
            Some(next) => {
                state.run_law();
                control = next;
            }
            None => return Ok(()),
        }
    }
}
