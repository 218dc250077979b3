ghost use Rattle.std.specs.Prelude.{◌≡◌, ◌<◌, [], All, Contains, Some, false, length, slice_get};
ghost use Rattle.history_lock.specs.Passes.{IsIdle, IsOf, IsSameLock, base_of as base_seen, numbers, seen};
ghost use Rattle.call_begins.specs.MayBegin.{empty};
ghost use Rattle.seat_turns.specs.Steps.{seat_of};
ghost use Rattle.vm_actors.specs.Between.{IsCalm, NoneOpen};
ghost use Rattle.vm_actors.specs.Doings.{Knows, MayAsk};
ghost use Rattle.vm_actors.specs.InTurns.{AreLeft, MadeInTurns};
ghost use Rattle.vm_actors.specs.Requests.{HasAnswered, HasAnsweredSome};

use crate::asks::ask;
use crate::ended::Ended;
use crate::gate::Gate;
use disk_trait::Block;
use history_lock::{HistoryLock, Pass};
use std::sync::Wait;
use vm_state::{Carrier, State};
use vm_types::{Proc, Request};

/// The request at a place.
fn at(work: &[Request], i: usize) -> Request
    requires { i < length work.now }
    ensures { slice_get work.now i ≡ Some result }
{
    work[i]
}

/// Asks for a process, one request after another, until memory runs out: what the process's thread does.
/// It pauses at the gate after each turn in which no entry was made. The pass owns the process's number,
/// and none of its numbers has an open transfer, before and after. No reuse is due after it, unless there
/// is no request and one was due before.
pub fn process_worker<W: Wait, B: Block, G: Gate>(
    rt: &W,
    lock: &HistoryLock<State<B>>,
    mut pass: Pass<State<B>>,
    mut carrier: Carrier<B>,
    p: Proc,
    work: &[Request],
    mut gate: G,
) -> Ended<B>
    requires own { IsOf lock.now pass }
    requires idle { IsIdle pass }
    requires knows { All (λ x. Knows (MayAsk p x) (base_seen pass)) work.now }
    requires number { Contains (numbers pass) p.0 }
    requires landed { NoneOpen (numbers pass) (seen pass) }
    requires carrier { carrier ≡ empty (seat_of p) }
    ensures idle { IsIdle result.pass }
    ensures numbers { numbers result.pass ≡ numbers pass }
    ensures base { base_seen result.pass ≡ base_seen pass }
    ensures same { IsSameLock pass result.pass }
    ensures some { HasAnsweredSome (numbers pass) (seen pass) (seen result.pass) work.now }
    ensures all { result.short ≡ false → HasAnswered (numbers pass) (seen pass) (seen result.pass) work.now }
    ensures turns { AreLeft (base_seen pass) p.0 work.now (seen pass) → MadeInTurns (base_seen pass) p.0 (seen pass) (seen result.pass) }
    ensures landed { NoneOpen (numbers pass) (seen result.pass) }
    ensures calm { (work.now ≡ [] → IsCalm (seen pass)) → IsCalm (seen result.pass) }
{
    for i in 0..work.len() {
        let x = at(work, i);
        match ask(rt, lock, &mut pass, &mut carrier, p, x, &mut gate) {
            Ok(_) => {}
            Err(_) => return Ended { pass, short: true },
        }
    }
    Ended { pass, short: false }
}
