ghost use Rattle.std.specs.Prelude.{◌≡◌, ◌<◌, [], Some, true, false, length};
ghost use Rattle.vm_types.specs.WellFormed.{IsServiceOf, IsWellFormedReference, IsWellFormedService};
ghost use Rattle.vm_types.specs.declared.service.Request.{Request};
ghost use Rattle.pager_model.specs.Flights.{awaits_reuse};
ghost use Rattle.vm_state.specs.Based.{base_of};
ghost use Rattle.carried_landings.specs.Outside.{AreOut, NoneWaits};
ghost use Rattle.seat_steps.specs.Turns.{HasStepped};
ghost use Rattle.seat_turns.specs.Begun.{IsBegunFor};
ghost use Rattle.seat_turns.specs.Steps.{HasTurned, is_reads, seat_of};
ghost use Rattle.seat_turns.specs.declared.turned.Turned.{Turned};

use crate::asking::{refer_next, serve_next};
use crate::landing::land_out;
use crate::refusing::{is_denied, is_failed};
use crate::room::has_room;
use crate::turned::{Spoken, Turned};
use disk_trait::Block;
use vm_services::refuse_service;
use vm_state::{Carrier, State};
use vm_types::{Answer, Proc, Ref, Reply, Seat, Service, Why};

/// What the seat of a process does for a reference while it has the state: what it has out, which was
/// carried, lands. Then, if the state wasn't halted and there is room, the reference is refused if what
/// was out for it was lost and it is still to be met; else the next step is made for it. `reading` says
/// that what is out was begun in a turn that went as `Reads`. A state for which there is no memory is
/// halted, and on a halted state nothing but landings is made.
pub fn refer_in_turn<B: Block>(
    state: &mut State<B>,
    carrier: &mut Carrier<B>,
    p: Proc,
    r: Ref,
    reading: bool,
) -> Turned
    requires process { p.0 < length state.old.config.procs }
    requires formed { IsWellFormedReference r }
    requires calm { awaits_reuse state.old.past ≡ false }
    requires out { AreOut B.seen B.tells (base_of state.old) state.old.past (seat_of p) carrier.old }
    requires carried { NoneWaits carrier.old.lifts }
    requires begun { (carrier.old.lifts ≡ [] → ⊥) → IsBegunFor state.old.past p.0 (Request.Reference r) reading }
    ensures turned { HasTurned B.seen B.tells state.old state.new (seat_of p) (Some (Request.Reference r)) result carrier.new }
    ensures step { HasStepped state.old.config state.old.past state.new.past p.0 (Some (Request.Reference r)) }
    ensures begun { (carrier.new.lifts ≡ [] → ⊥) → IsBegunFor state.new.past p.0 (Request.Reference r) (is_reads result) }
    ensures halted { state.old.halted ≡ true → result ≡ Turned.Short }
{
    let seat = Seat(p.0);
    let lost = land_out(state, carrier, seat, reading);
    if !has_room(state) {
        return Turned::Short;
    }
    if is_denied(state, p, r, lost) {
        fault_core::refuse(state, seat, p, r);
        return Turned::Spoke(Spoken::Reply(Reply::Refused(Why::DiskFault)));
    }
    refer_next(state, carrier, p, r)
}

/// What the seat of a process does for a service while it has the state, in the same order: what it has
/// out lands, then the service is refused if all of that failed and it may still be refused, or the next
/// step is made for it.
pub fn serve_in_turn<B: Block>(
    state: &mut State<B>,
    carrier: &mut Carrier<B>,
    p: Proc,
    s: Service,
) -> Turned
    requires process { p.0 < length state.old.config.procs }
    requires formed { IsWellFormedService s }
    requires known { IsServiceOf state.old.config.version s }
    requires calm { awaits_reuse state.old.past ≡ false }
    requires out { AreOut B.seen B.tells (base_of state.old) state.old.past (seat_of p) carrier.old }
    requires carried { NoneWaits carrier.old.lifts }
    requires begun { (carrier.old.lifts ≡ [] → ⊥) → IsBegunFor state.old.past p.0 (Request.Service s) false }
    ensures turned { HasTurned B.seen B.tells state.old state.new (seat_of p) (Some (Request.Service s)) result carrier.new }
    ensures step { HasStepped state.old.config state.old.past state.new.past p.0 (Some (Request.Service s)) }
    ensures begun { (carrier.new.lifts ≡ [] → ⊥) → IsBegunFor state.new.past p.0 (Request.Service s) false }
    ensures halted { state.old.halted ≡ true → result ≡ Turned.Short }
{
    let seat = Seat(p.0);
    let lost = land_out(state, carrier, seat, false);
    if !has_room(state) {
        return Turned::Short;
    }
    if is_failed(state, p, s, lost) {
        refuse_service(state, seat, p, s);
        return Turned::Spoke(Spoken::Answer(Answer::DiskFault));
    }
    serve_next(state, carrier, p, s)
}
