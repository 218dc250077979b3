ghost use Rattle.std.specs.Prelude.{◌≡◌, [], false, length, true};
ghost use Rattle.pager_model.specs.Flights.{awaits_reuse};
ghost use Rattle.history_lock.specs.Values.{IsSameTurn, value_of};
ghost use Rattle.vm_state.specs.Based.{base_of};
ghost use Rattle.vm_state.specs.History.{pager};
ghost use Rattle.carried_landings.specs.Outside.{AreOut, NoneWaits};
ghost use Rattle.seat_steps.specs.Turns.{HasStepped};
ghost use Rattle.seat_turns.specs.Steps.{HasTurned, is_reads};
ghost use Rattle.seat_turns.specs.declared.turned.Turned.{Turned};
ghost use Rattle.vm_actors.specs.Doings.{HasRested, AreBegunFor, MayDo, request_of};

use crate::doing::Doing;
use crate::taken::Taken;
use disk_trait::Block;
use history_lock::Turn;
use seat_turns::{Turned, refer_in_turn, serve_in_turn, swap_in_turn, write_in_turn};
use vm_state::{Carrier, State};
use vm_types::{Request, Seat};

/// What a seat does while it has the state.
fn do_in_turn<B: Block>(
    state: &mut State<B>,
    carrier: &mut Carrier<B>,
    _seat: Seat,
    doing: Doing,
    reading: bool,
) -> Turned
    requires may { MayDo _seat doing state.old.config }
    requires calm { awaits_reuse state.old.past ≡ false }
    requires out { AreOut B.seen B.tells (base_of state.old) state.old.past _seat carrier.old }
    requires carried { NoneWaits carrier.old.lifts }
    requires begun { (carrier.old.lifts ≡ [] → ⊥) → AreBegunFor state.old.past _seat doing reading }
    ensures turned { HasTurned B.seen B.tells state.old state.new _seat (request_of doing) result carrier.new }
    ensures step { HasStepped state.old.config state.old.past state.new.past _seat.0 (request_of doing) }
    ensures begun { (carrier.new.lifts ≡ [] → ⊥) → AreBegunFor state.new.past _seat doing (is_reads result) }
    ensures rests { result ≡ Turned.Rests → HasRested doing state.new.config state.new.past (pager state.new) }
{
    match doing {
        Doing::Asking(p, x) => match x {
            Request::Reference(r) => refer_in_turn(state, carrier, p, r, reading),
            Request::Service(s) => serve_in_turn(state, carrier, p, s),
        },
        Doing::Writing => write_in_turn(state, carrier),
        Doing::Swapping => swap_in_turn(state, carrier),
    }
}

/// What a seat does while it has the turn. Returns how it went, and whether there are more entries.
pub(crate) fn step<B: Block>(
    turn: &mut Turn<State<B>>,
    carrier: &mut Carrier<B>,
    seat: Seat,
    doing: Doing,
    reading: bool,
) -> Taken
    requires may { MayDo seat doing (value_of turn.old).config }
    requires calm { awaits_reuse (value_of turn.old).past ≡ false }
    requires out { AreOut B.seen B.tells (base_of (value_of turn.old)) (value_of turn.old).past seat carrier.old }
    requires carried { NoneWaits carrier.old.lifts }
    requires begun { (carrier.old.lifts ≡ [] → ⊥) → AreBegunFor (value_of turn.old).past seat doing reading }
    ensures same { IsSameTurn turn.old turn.new }
    ensures turned { HasTurned B.seen B.tells (value_of turn.old) (value_of turn.new) seat (request_of doing) result.turned carrier.new }
    ensures step { HasStepped (value_of turn.old).config (value_of turn.old).past (value_of turn.new).past seat.0 (request_of doing) }
    ensures begun { (carrier.new.lifts ≡ [] → ⊥) → AreBegunFor (value_of turn.new).past seat doing (is_reads result.turned) }
    ensures rests { result.turned ≡ Turned.Rests → HasRested doing (value_of turn.new).config (value_of turn.new).past (pager (value_of turn.new)) }
    ensures none { result.made ≡ false → length (value_of turn.new).past ≡ length (value_of turn.old).past }
    ensures some { result.made ≡ true → length (value_of turn.new).past ≡ length (value_of turn.old).past → ⊥ }
{
    let state = turn.value_mut();
    let before = state.entry_count();
    let turned = do_in_turn(state, carrier, seat, doing, reading);
    let made = state.entry_count() != before;
    Taken { turned, made }
}
