ghost use Rattle.std.specs.Prelude.{◌≡◌, ◌+◌, ◌<◌, Some, None, IfSome, true, false, length};
ghost use Rattle.vm_types.specs.declared.names.ProcStatus.TheVariants as status;
ghost use Rattle.pager_model.specs.Flights.{awaits_reuse};
ghost use Rattle.pager_policy.specs.Swap.{leave_gives, swap_again, swap_in_flight};
ghost use Rattle.vm_state.specs.Based.{base_of};
ghost use Rattle.vm_state.specs.History.{pager};
ghost use Rattle.call_begins.specs.MayBegin.{empty};
ghost use Rattle.carried_landings.specs.Outside.{AreOut, NoneWaits};
ghost use Rattle.seat_laws.specs.FreeSeat.{IsFreeSeat};
ghost use Rattle.seat_steps.specs.Steps.{IsStep, IsToLeave};
ghost use Rattle.seat_steps.specs.Turns.{HasStepped};
ghost use Rattle.seat_turns.specs.Rests.{SwapperRests, WriterRests};
ghost use Rattle.seat_turns.specs.Steps.{HasTurned, swapper_seat, writer_seat};
ghost use Rattle.seat_turns.specs.Worked.{MayStart};
ghost use Rattle.seat_turns.specs.declared.turned.Turned.{Turned};

use crate::asking::worked;
use crate::landing::land_out;
use crate::processes::{lowest_leaving, processes};
use crate::room::has_room;
use crate::swapping::turn_victim;
use crate::turned::Turned;
use crate::working::write_for_room;
use disk_trait::Block;
use modified_writer::{Begin, Reason, begin};
use vm_state::{Carrier, State};
use vm_swapper::{Swap, SwapWhy, leave_some};
use vm_types::{Proc, Seat};

/// The seat of the modified page writer.
fn writer<B: Block>(state: &State<B>) -> Seat
    ensures { result ≡ writer_seat state.now.config }
{
    Seat(processes(state))
}

/// The seat of the swapper.
fn swapper<B: Block>(state: &State<B>) -> Seat
    ensures { result ≡ swapper_seat state.now.config }
{
    Seat(processes(state) + 1)
}

/// Lands what the seat has out, which was carried, for no request. Returns how the turn went if it ends
/// with that: something was out, or the state is halted; else nothing was out, and there is room.
fn land_idle<B: Block>(state: &mut State<B>, carrier: &mut Carrier<B>, seat: Seat) -> Option<Turned>
    requires there { seat.0 < length state.old.config.procs + 2 }
    requires calm { awaits_reuse state.old.past ≡ false }
    requires out { AreOut B.seen B.tells (base_of state.old) state.old.past seat carrier.old }
    requires carried { NoneWaits carrier.old.lifts }
    ensures turned { IfSome result (λ turned. HasTurned B.seen B.tells state.old state.new seat None turned carrier.new) }
    ensures step { IfSome result (λ (x : Turned). HasStepped state.old.config state.old.past state.new.past seat.0 None) }
    ensures busy { IfSome result (λ turned. turned ≡ Turned.Rests → ⊥) }
    ensures halted { state.old.halted ≡ true → result ≡ Some Turned.Short }
    ensures free { result ≡ None → IsFreeSeat state.new seat }
    ensures same { result ≡ None → state.new ≡ record state.old { spare = (state.new).spare; halted = false } }
    ensures carrier { result ≡ None → carrier.new ≡ empty seat }
{
    let some = carrier.len() > 0;
    land_out(state, carrier, seat, false);
    if !has_room(state) {
        return Some(Turned::Short);
    }
    if some {
        return Some(Turned::Made);
    }
    None
}

/// The writer's step: a write cluster begins, if the modified list is longer than LOLIMIT.
fn write_next<B: Block>(state: &mut State<B>, seat: Seat, carrier: &mut Carrier<B>) -> Turned
    requires free { IsFreeSeat state.old seat }
    requires running { state.old.halted ≡ false }
    requires carrier { carrier.old ≡ empty seat }
    ensures turned { HasTurned B.seen B.tells state.old state.new seat None result carrier.new }
    ensures step { seat ≡ writer_seat state.old.config → IsStep state.old.config state.old.past state.new.past seat.0 None }
    ensures rests { result ≡ Turned.Rests → WriterRests state.old.config (pager state.old) }
{
    match begin(state, seat, Reason::High, carrier) {
        Begin::Carry => Turned::Made,
        Begin::Nothing => Turned::Rests,
        Begin::Room => unreachable!(),
    }
}

/// What the modified page writer does while it has the state: what it has out, which was carried, lands.
/// If nothing was out, the state wasn't halted and there is room, it begins to write a cluster, or rests
/// as the modified list is at most LOLIMIT pages long. A state for which there is no memory is halted,
/// and on a halted state nothing but landings is made.
pub fn write_in_turn<B: Block>(state: &mut State<B>, carrier: &mut Carrier<B>) -> Turned
    requires calm { awaits_reuse state.old.past ≡ false }
    requires out { AreOut B.seen B.tells (base_of state.old) state.old.past (writer_seat state.old.config) carrier.old }
    requires carried { NoneWaits carrier.old.lifts }
    ensures turned { HasTurned B.seen B.tells state.old state.new (writer_seat state.old.config) None result carrier.new }
    ensures step { HasStepped state.old.config state.old.past state.new.past (writer_seat state.old.config).0 None }
    ensures halted { state.old.halted ≡ true → result ≡ Turned.Short }
    ensures rests { result ≡ Turned.Rests → (state.new.past ≡ state.old.past) × WriterRests state.new.config (pager state.new) }
{
    let seat = writer(state);
    match land_idle(state, carrier, seat) {
        Some(turned) => turned,
        None => write_next(state, seat, carrier),
    }
}

/// The lowest process that is leaving goes on to leave.
fn leave_lowest<B: Block>(state: &mut State<B>, q: Proc, carrier: &mut Carrier<B>) -> Turned
    requires start { MayStart state.old carrier.old }
    requires running { state.old.halted ≡ false }
    requires process { q.0 < length state.old.config.procs }
    requires leaving { (pager state.old).status q.0 ≡ status.Leaving }
    ensures turned { HasTurned B.seen B.tells state.old state.new carrier.old.seat None result carrier.new }
    ensures step { IsToLeave state.old.config state.old.past carrier.old.seat.0 None q.0 → IsStep state.old.config state.old.past state.new.past carrier.old.seat.0 None }
    ensures rests { result ≡ Turned.Rests → (leave_gives state.old.config state.old.past (pager state.old) q.0).answer ≡ swap_again swap_in_flight }
{
    match leave_some(state, carrier.seat(), q, carrier) {
        Swap::Carry => Turned::Made,
        Swap::More => Turned::Made,
        Swap::Settled => Turned::Made,
        Swap::Again(SwapWhy::InFlight) => Turned::Rests,
        Swap::Again(SwapWhy::ModifiedFull) => worked(write_for_room(state, carrier)),
        Swap::Again(SwapWhy::NoFrame) => Turned::Waits,
        Swap::Room => unreachable!(),
    }
}

/// The swapper's step: the lowest process that is leaving goes on; if none is, and fewer frames are free
/// than FREELIM, the process that is chosen to leave turns to leaving.
fn swap_next<B: Block>(state: &mut State<B>, seat: Seat, carrier: &mut Carrier<B>) -> Turned
    requires free { IsFreeSeat state.old seat }
    requires running { state.old.halted ≡ false }
    requires carrier { carrier.old ≡ empty seat }
    ensures turned { HasTurned B.seen B.tells state.old state.new seat None result carrier.new }
    ensures step { seat ≡ swapper_seat state.old.config → IsStep state.old.config state.old.past state.new.past seat.0 None }
    ensures rests { result ≡ Turned.Rests → SwapperRests state.old.config state.old.past (pager state.old) }
{
    if let Some(q) = lowest_leaving(state, None) {
        return leave_lowest(state, q, carrier);
    }
    if state.free_len() >= state.config().params.freelim {
        return Turned::Rests;
    }
    if turn_victim(state, seat, None) {
        Turned::Made
    } else {
        Turned::Rests
    }
}

/// What the swapper does while it has the state: what it has out, which was carried, lands. If nothing
/// was out, the state wasn't halted and there is room, the lowest process that is leaving goes on to
/// leave, for which a write cluster may be begun; if none is leaving, and fewer frames are free than
/// FREELIM, the process that is chosen to leave turns to leaving; else the swapper rests. A state for
/// which there is no memory is halted, and on a halted state nothing but landings is made.
pub fn swap_in_turn<B: Block>(state: &mut State<B>, carrier: &mut Carrier<B>) -> Turned
    requires calm { awaits_reuse state.old.past ≡ false }
    requires out { AreOut B.seen B.tells (base_of state.old) state.old.past (swapper_seat state.old.config) carrier.old }
    requires carried { NoneWaits carrier.old.lifts }
    ensures turned { HasTurned B.seen B.tells state.old state.new (swapper_seat state.old.config) None result carrier.new }
    ensures step { HasStepped state.old.config state.old.past state.new.past (swapper_seat state.old.config).0 None }
    ensures halted { state.old.halted ≡ true → result ≡ Turned.Short }
    ensures rests { result ≡ Turned.Rests → (state.new.past ≡ state.old.past) × SwapperRests state.new.config state.new.past (pager state.new) }
{
    let seat = swapper(state);
    match land_idle(state, carrier, seat) {
        Some(turned) => turned,
        None => swap_next(state, seat, carrier),
    }
}
