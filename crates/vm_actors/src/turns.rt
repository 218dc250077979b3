ghost use Rattle.std.specs.Prelude.{◌≡◌, Contains, List, [], false, reverse, true};
ghost use Rattle.vm_types.specs.declared.names.Seat.{Seat};
ghost use Rattle.vm_journal.specs.declared.entry.Entry.{Entry};
ghost use Rattle.history_lock.specs.Passes.{IsIdle, IsOf, IsSameLock, base_of as base_seen, numbers, seen};
ghost use Rattle.vm_state.specs.declared.base.StateBase.{StateBase};
ghost use Rattle.carried_landings.specs.Outside.{AreOut, NoneWaits};
ghost use Rattle.seat_turns.specs.Steps.{IsStaged, is_reads};
ghost use Rattle.seat_turns.specs.declared.turned.Turned.{Turned};
ghost use Rattle.vm_actors.specs.Between.{IsBetweenTurns, IsCalm, IsJournalOf, NoOtherOpen};
ghost use Rattle.vm_actors.specs.Doings.{AreBegunFor, Knows, MayDo, RestsAt, request_of};
ghost use Rattle.vm_actors.specs.Ends.{may_carry};
ghost use Rattle.vm_actors.specs.InTurns.{IsDueFor, MadeInTurns};
ghost use Rattle.vm_actors.specs.OwnEntries.{GoesOnWith, MadeNone, MadeSome, TurnEntries};

use crate::doing::Doing;
use crate::ends::may_carry;
use crate::entering::enter_calm;
use crate::gate::Gate;
use crate::stepping::step;
use crate::taken::Taken;
use disk_trait::Block;
use history_lock::{HistoryLock, Pass};
use seat_turns::Turned;
use std::sync::Wait;
use vm_state::{Carrier, State};
use vm_types::Seat;

/// One turn of a seat, and the carrying that follows it with no turn held. `reading` says that what is
/// out was begun in a turn that went as `Reads`. Returns how the turn went, and whether an entry was made.
pub(crate) fn take_turn<W: Wait, B: Block, G: Gate>(
    rt: &W,
    lock: &HistoryLock<State<B>>,
    pass: &mut Pass<State<B>>,
    carrier: &mut Carrier<B>,
    seat: Seat,
    doing: Doing,
    reading: bool,
    gate: &mut G,
) -> Taken
    requires own { IsOf lock.now pass.old }
    requires idle { IsIdle pass.old }
    requires knows { Knows (MayDo seat doing) (base_seen pass.old) }
    requires number { Contains (numbers pass.old) seat.0 }
    requires between { IsBetweenTurns B.seen B.tells (base_seen pass.old) (reverse (seen pass.old)) seat carrier.old }
    requires begun { (carrier.old.lifts ≡ [] → ⊥) → AreBegunFor (reverse (seen pass.old)) seat doing reading }
    requires others { NoOtherOpen (numbers pass.old) seat.0 (reverse (seen pass.old)) }
    ensures idle { IsIdle pass.new }
    ensures numbers { numbers pass.new ≡ numbers pass.old }
    ensures base { base_seen pass.new ≡ base_seen pass.old }
    ensures same { IsSameLock pass.old pass.new }
    ensures taken { GoesOnWith (TurnEntries seat result.turned (request_of doing)) (numbers pass.old) (seen pass.old) (seen pass.new) }
    ensures turns { IsDueFor doing (base_seen pass.old) (seen pass.old) → MadeInTurns (base_seen pass.old) seat.0 (seen pass.old) (seen pass.new) }
    ensures none { result.made ≡ false → MadeNone (numbers pass.old) (seen pass.old) (seen pass.new) }
    ensures some { result.made ≡ true → MadeSome (numbers pass.old) (seen pass.old) (seen pass.new) }
    ensures rests { result.turned ≡ Turned.Rests → RestsAt doing (base_seen pass.old) (reverse (seen pass.new)) }
    ensures between { IsBetweenTurns B.seen B.tells (base_seen pass.new) (reverse (seen pass.new)) seat carrier.new }
    ensures begun { (carrier.new.lifts ≡ [] → ⊥) → AreBegunFor (reverse (seen pass.new)) seat doing (is_reads result.turned) }
    ensures others { NoOtherOpen (numbers pass.old) seat.0 (reverse (seen pass.new)) }
    ensures calm { IsCalm (seen pass.new) }
    ensures legal { IsJournalOf B.tells.content (base_seen pass.new) (seen pass.new) }
    ensures landed { may_carry result.turned ≡ false → carrier.new.lifts ≡ [] }
{
    let mut turn = enter_calm(rt, lock, pass, seat, gate);
    turn.value().run_law();
    let taken = step(&mut turn, carrier, seat, doing, reading);
    turn.value().run_law();
    lock.leave(pass, turn);
    carry_begun(taken.turned, carrier);
    taken
}

/// Carries what was begun in the turn. A lift that fitted a journal still fits it.
fn carry_begun<B: Block>(turned: Turned, carrier: &mut Carrier<B>)
    requires staged { IsStaged turned carrier.old.lifts }
    ensures carried { NoneWaits carrier.new.lifts }
    ensures out { (b : StateBase) (past : List Entry) (seat : Seat) → AreOut B.seen B.tells b past seat carrier.old → AreOut B.seen B.tells b past seat carrier.new }
    ensures none { carrier.old.lifts ≡ [] → carrier.new.lifts ≡ [] }
{
    if may_carry(turned) {
        carrier.carry();
    }
}
