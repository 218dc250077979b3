ghost use Rattle.std.specs.Prelude.{◌≡◌, ◌<◌, IfOk, OnErr, length};
ghost use Rattle.vm_types.specs.declared.names.ProcStatus.TheVariants as status;
ghost use Rattle.pager_policy.specs.Policy.{leave_move};
ghost use Rattle.vm_state.specs.History.{pager};
ghost use Rattle.serial_moves.specs.Carriers.{MayMove};
ghost use Rattle.serial_moves.specs.Controls.{Moves, doing_in, ends_in};
ghost use Rattle.carried_landings.specs.Moved.{IsMoveHere};

use crate::carrying::{carry_on, write_for_room};
use crate::control::{Control, Doing, Step};
use disk_trait::Block;
use vm_state::{Carrier, State};
use vm_swapper::{Swap, SwapWhy, leave_some};
use vm_types::{Proc, Seat};

/// A process that is leaving goes on to leave.
///
/// # Errors
/// `NoMemory` if out of memory: room for fewer than 64 entries is left then.
#[inline(never)]
pub fn leave<B: Block>(
    state: &mut State<B>,
    seat: Seat,
    q: Proc,
    doing: Doing,
    carrier: &mut Carrier<B>,
) -> Step
    requires may { MayMove state.old seat carrier.old }
    requires process { q.0 < length state.old.config.procs }
    requires leaving { (pager state.old).status q.0 ≡ status.Leaving }
    requires here { IsMoveHere state.old (leave_move state.old.config state.old.past (pager state.old) seat.0 q.0 (ends_in doing) (doing_in doing)) }
    ensures carrier { carrier.new ≡ carrier.old }
    ensures moved { IfOk result (Moves B.tells.content state.old state.new
        (leave_move state.old.config state.old.past (pager state.old) seat.0 q.0 (ends_in doing) (doing_in doing))) }
    ensures memory { OnErr result (state.new.spare < 64) }
{
    let next = Control {
        doing,
        leaving: Some(q),
    };
    match leave_some(state, seat, q, carrier) {
        Swap::Carry => Ok(Some(carry_on(state, seat, next, carrier)?)),
        Swap::More => Ok(Some(next)),
        Swap::Settled => Ok(Some(Control {
            doing,
            leaving: None,
        })),
        Swap::Again(why) => match why {
            SwapWhy::ModifiedFull => Ok(Some(write_for_room(state, seat, next, carrier)?)),
            SwapWhy::InFlight => Ok(None),
            SwapWhy::NoFrame => Ok(None),
        },
        Swap::Room => unreachable!(),
    }
}
