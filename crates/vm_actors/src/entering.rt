ghost use Rattle.std.specs.Prelude.{◌≡◌, false};
ghost use Rattle.pager_model.specs.Flights.{awaits_reuse};
ghost use Rattle.history_lock.specs.Known.{Known};
ghost use Rattle.history_lock.specs.Passes.{HasTurn, IsIdle, IsOf, IsSameLock, base_of as base_seen, numbers, seen, view};
ghost use Rattle.history_lock.specs.Values.{value_of};
ghost use Rattle.vm_state.specs.Based.{base_of, kept_entries};

use crate::gate::Gate;
use disk_trait::Block;
use history_lock::{HistoryLock, Pass, Turn};
use std::sync::Wait;
use vm_state::State;
use vm_types::Seat;

/// Waits for a turn in which no reuse is due. A turn that finds a reuse due is another seat's: it is
/// given up.
pub(crate) fn enter_calm<W: Wait, B: Block, G: Gate>(
    rt: &W,
    lock: &HistoryLock<State<B>>,
    pass: &mut Pass<State<B>>,
    seat: Seat,
    gate: &mut G,
) -> Turn<State<B>>
    requires own { IsOf lock.now pass.old }
    requires idle { IsIdle pass.old }
    ensures known { Known kept_entries base_of (value_of result) (view pass.old) }
    ensures turn { HasTurn pass.new result }
    ensures seen { seen pass.new ≡ kept_entries (value_of result) }
    ensures numbers { numbers pass.new ≡ numbers pass.old }
    ensures base { base_seen pass.new ≡ base_seen pass.old }
    ensures same { IsSameLock pass.old pass.new }
    ensures calm { awaits_reuse (value_of result).past ≡ false }
{
    for _ in rt.forever() {
        let turn = lock.enter(rt, pass);
        if turn.value().is_calm() {
            return turn;
        }
        lock.leave(pass, turn);
        gate.pause(seat);
    }
    unreachable!()
}
