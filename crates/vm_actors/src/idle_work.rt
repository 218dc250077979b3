ghost use Rattle.std.specs.Prelude.{◌≡◌, ◌⊎◌, Contains, None, false, reverse};
ghost use Rattle.history_lock.specs.Passes.{IsIdle, IsOf, IsSameLock, base_of as base_seen, numbers, seen};
ghost use Rattle.call_begins.specs.MayBegin.{empty};
ghost use Rattle.vm_actors.specs.Between.{IsCalm, NoneOpen};
ghost use Rattle.vm_actors.specs.Doings.{Knows, MayDo, RestsAt, request_of};
ghost use Rattle.vm_actors.specs.InTurns.{MadeInTurns};
ghost use Rattle.vm_actors.specs.OwnEntries.{GoesOnSilently, MadeSome};
ghost use Rattle.vm_actors.specs.Requests.{AreAllAnswered};

use crate::doing::Doing;
use crate::ended::Ended;
use crate::gate::Gate;
use crate::idle_turns::work_once;
use crate::looking::look_answered;
use disk_trait::Block;
use history_lock::{HistoryLock, Pass};
use std::sync::Wait;
use vm_state::{Carrier, State};

/// Works for no request, again and again: what the thread of the modified page writer or of the swapper
/// does. It looks in a turn whether all requests were answered, works once as `work_once`, and ends after
/// the call before which they were; or where memory runs out. It pauses at the gate after each turn in
/// which no entry was made. The pass owns the number of the carrier's seat, and none of its numbers has an
/// open transfer, before and after.
pub fn idle_worker<W: Wait, B: Block, G: Gate>(
    rt: &W,
    lock: &HistoryLock<State<B>>,
    mut pass: Pass<State<B>>,
    mut carrier: Carrier<B>,
    doing: Doing,
    mut gate: G,
) -> Ended<B>
    requires own { IsOf lock.now pass }
    requires idle { IsIdle pass }
    requires knows { Knows (MayDo carrier.seat doing) (base_seen pass) }
    requires number { Contains (numbers pass) carrier.seat.0 }
    requires idles { request_of doing ≡ None }
    requires landed { NoneOpen (numbers pass) (seen pass) }
    requires carrier { carrier ≡ empty carrier.seat }
    ensures idle { IsIdle result.pass }
    ensures numbers { numbers result.pass ≡ numbers pass }
    ensures base { base_seen result.pass ≡ base_seen pass }
    ensures same { IsSameLock pass result.pass }
    ensures silent { GoesOnSilently (numbers pass) (seen pass) (seen result.pass) }
    ensures answered { result.short ≡ false → AreAllAnswered (base_seen pass) (seen result.pass) }
    ensures done { result.short ≡ false → MadeSome (numbers pass) (seen pass) (seen result.pass) ⊎ RestsAt doing (base_seen pass) (reverse (seen result.pass)) }
    ensures turns { MadeInTurns (base_seen pass) carrier.seat.0 (seen pass) (seen result.pass) }
    ensures landed { NoneOpen (numbers pass) (seen result.pass) }
    ensures calm { IsCalm (seen result.pass) }
{
    let seat = carrier.seat();
    for _ in rt.forever() {
        let last = look_answered(rt, lock, &mut pass);
        gate.pause(seat);
        match work_once(rt, lock, &mut pass, &mut carrier, doing, &mut gate) {
            Err(_) => return Ended { pass, short: true },
            Ok(_) => {
                if last {
                    return Ended { pass, short: false };
                }
            }
        }
    }
    unreachable!()
}
