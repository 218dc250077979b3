ghost use Rattle.std.specs.Prelude.{◌≡◌, Contains, IfOk, None, false, reverse, true};
ghost use Rattle.history_lock.specs.Passes.{IsIdle, IsOf, IsSameLock, base_of as base_seen, numbers, seen};
ghost use Rattle.call_begins.specs.MayBegin.{empty};
ghost use Rattle.vm_actors.specs.Between.{IsCalm, IsJournalOf, NoneOpen};
ghost use Rattle.vm_actors.specs.Doings.{Knows, MayDo, RestsAt, request_of};
ghost use Rattle.vm_actors.specs.InTurns.{MadeInTurns};
ghost use Rattle.vm_actors.specs.OwnEntries.{GoesOnSilently, MadeNone, MadeSome};

use crate::doing::Doing;
use crate::ends::{either, idle_end_of};
use crate::gate::{Gate, pause};
use crate::turns::take_turn;
use disk_trait::Block;
use history_lock::{HistoryLock, Pass};
use std::sync::Wait;
use vm_state::{Carrier, State};
use vm_types::NoMemory;

/// Works once for no request. The modified page writer writes a cluster, if the modified list is longer
/// than LOLIMIT. The lowest process that is leaving goes on to leave by the swapper, for which a write
/// cluster may be written; or, if none is leaving and fewer frames are free than FREELIM, the process that
/// is chosen to leave turns to leaving. It waits for turns, carries with no turn held, and pauses at the
/// gate after each turn in which no entry was made. The pass owns the number of the carrier's seat, and
/// none of its numbers has an open transfer. Returns whether an entry was made.
///
/// # Errors
/// `NoMemory` if memory ran out, or if the state was halted.
pub fn work_once<W: Wait, B: Block, G: Gate>(
    rt: &W,
    lock: &HistoryLock<State<B>>,
    pass: &mut Pass<State<B>>,
    carrier: &mut Carrier<B>,
    doing: Doing,
    gate: &mut G,
) -> Result<bool, NoMemory>
    requires own { IsOf lock.now pass.old }
    requires idle { IsIdle pass.old }
    requires knows { Knows (MayDo carrier.old.seat doing) (base_seen pass.old) }
    requires number { Contains (numbers pass.old) carrier.old.seat.0 }
    requires idles { request_of doing ≡ None }
    requires landed { NoneOpen (numbers pass.old) (seen pass.old) }
    requires carrier { carrier.old ≡ empty carrier.old.seat }
    ensures idle { IsIdle pass.new }
    ensures numbers { numbers pass.new ≡ numbers pass.old }
    ensures base { base_seen pass.new ≡ base_seen pass.old }
    ensures same { IsSameLock pass.old pass.new }
    ensures silent { GoesOnSilently (numbers pass.old) (seen pass.old) (seen pass.new) }
    ensures made { IfOk result (λ made. made ≡ true → MadeSome (numbers pass.old) (seen pass.old) (seen pass.new)) }
    ensures none { IfOk result (λ made. made ≡ false → MadeNone (numbers pass.old) (seen pass.old) (seen pass.new)) }
    ensures rests { IfOk result (λ made. made ≡ false → RestsAt doing (base_seen pass.old) (reverse (seen pass.new))) }
    ensures turns { MadeInTurns (base_seen pass.old) carrier.old.seat.0 (seen pass.old) (seen pass.new) }
    ensures landed { NoneOpen (numbers pass.old) (seen pass.new) }
    ensures calm { IsCalm (seen pass.new) }
    ensures legal { IsJournalOf B.tells.content (base_seen pass.new) (seen pass.new) }
    ensures carrier { carrier.new ≡ carrier.old }
{
    let seat = carrier.seat();
    let mut made = false;
    for _ in rt.forever() {
        let taken = take_turn(rt, lock, pass, carrier, seat, doing, false, gate);
        pause(gate, seat, taken.made);
        made = either(made, taken.made);
        if let Some(end) = idle_end_of(taken.turned, made) {
            return end;
        }
        if made && carrier.len() == 0 {
            return Ok(true);
        }
    }
    unreachable!()
}
