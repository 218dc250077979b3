ghost use Rattle.std.specs.Prelude.{◌≡◌, Contains, IfOk, OnErr};
ghost use Rattle.history_lock.specs.Passes.{IsIdle, IsOf, IsSameLock, base_of as base_seen, numbers, seen};
ghost use Rattle.call_begins.specs.MayBegin.{empty};
ghost use Rattle.seat_turns.specs.Steps.{seat_of};
ghost use Rattle.vm_actors.specs.Between.{IsCalm, IsJournalOf, NoneOpen};
ghost use Rattle.vm_actors.specs.Doings.{Knows, MayAsk};
ghost use Rattle.vm_actors.specs.InTurns.{IsNext, MadeInTurns};
ghost use Rattle.vm_actors.specs.OwnEntries.{GoesOnSilently, IsReplied};

use crate::doing::Doing;
use crate::ends::{end_of, reads};
use crate::gate::{Gate, pause};
use crate::turns::take_turn;
use disk_trait::Block;
use history_lock::{HistoryLock, Pass};
use seat_turns::Spoken;
use std::sync::Wait;
use vm_state::{Carrier, State};
use vm_types::{NoMemory, Proc, Request, Seat};

/// Asks for a process, by its own seat, until it is answered. It waits for turns, carries with no turn
/// held, and pauses at the gate after each turn in which no entry was made. A reference waits where a
/// page, a block or a charge is another seat's, or memory has no frame for it yet, and a deletion or a
/// purge for the transfers of its pages; the seat does the work of the writer and of the swapper itself
/// that it waits for. The pass owns the process's number, and none of its numbers has an open transfer.
///
/// # Errors
/// `NoMemory` if memory ran out, or if the state was halted.
pub fn ask<W: Wait, B: Block, G: Gate>(
    rt: &W,
    lock: &HistoryLock<State<B>>,
    pass: &mut Pass<State<B>>,
    carrier: &mut Carrier<B>,
    p: Proc,
    x: Request,
    gate: &mut G,
) -> Result<Spoken, NoMemory>
    requires own { IsOf lock.now pass.old }
    requires idle { IsIdle pass.old }
    requires knows { Knows (MayAsk p x) (base_seen pass.old) }
    requires number { Contains (numbers pass.old) p.0 }
    requires landed { NoneOpen (numbers pass.old) (seen pass.old) }
    requires carrier { carrier.old ≡ empty (seat_of p) }
    ensures idle { IsIdle pass.new }
    ensures numbers { numbers pass.new ≡ numbers pass.old }
    ensures base { base_seen pass.new ≡ base_seen pass.old }
    ensures same { IsSameLock pass.old pass.new }
    ensures replied { IfOk result (IsReplied (seat_of p) x (numbers pass.old) (seen pass.old) (seen pass.new)) }
    ensures silent { OnErr result (GoesOnSilently (numbers pass.old) (seen pass.old) (seen pass.new)) }
    ensures turns { IsNext (base_seen pass.old) p.0 x (seen pass.old) → MadeInTurns (base_seen pass.old) p.0 (seen pass.old) (seen pass.new) }
    ensures landed { NoneOpen (numbers pass.old) (seen pass.new) }
    ensures calm { IsCalm (seen pass.new) }
    ensures legal { IsJournalOf B.tells.content (base_seen pass.new) (seen pass.new) }
    ensures carrier { carrier.new ≡ empty (seat_of p) }
{
    let seat = Seat(p.0);
    let doing = Doing::Asking(p, x);
    let mut reading = false;
    for _ in rt.forever() {
        let taken = take_turn(rt, lock, pass, carrier, seat, doing, reading, gate);
        pause(gate, seat, taken.made);
        if let Some(end) = end_of(taken.turned) {
            return end;
        }
        reading = reads(taken.turned);
    }
    unreachable!()
}
