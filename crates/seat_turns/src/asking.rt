ghost use Rattle.std.specs.Prelude.{◌≡◌, ◌<◌, ℕ, List, [], Option, Some, false, length};
ghost use Rattle.vm_types.specs.declared.config.Config.{Config};
ghost use Rattle.vm_types.specs.declared.reference.Ref.{Ref};
ghost use Rattle.vm_types.specs.declared.reply.Answer.{Answer};
ghost use Rattle.vm_types.specs.declared.reply.Reply.{Reply};
ghost use Rattle.vm_types.specs.declared.service.Request.{Request};
ghost use Rattle.vm_types.specs.declared.service.Service.{Service};
ghost use Rattle.vm_journal.specs.declared.entry.Entry.{Entry};
ghost use Rattle.fault_core.specs.Gives.{returned};
ghost use Rattle.fault_core.specs.declared.next.Next.{Next};
ghost use Rattle.vm_services.specs.Serves.{returned as served_as};
ghost use Rattle.vm_services.specs.declared.next.ServeNext.{ServeNext};
ghost use Rattle.seat_steps.specs.Steps.{IsStep};
ghost use Rattle.seat_steps.specs.Waits.{reference_answer, service_answer};
ghost use Rattle.seat_turns.specs.Begun.{IsBegunFor};
ghost use Rattle.seat_turns.specs.Steps.{HasTurned, is_reads, seat_of, turned_by};
ghost use Rattle.seat_turns.specs.Stepping.{IsNeed, IsStepWhere, WaitsOwn};
ghost use Rattle.seat_turns.specs.Worked.{HasTried, MayStart, MayStep};

use crate::swapping::{bring_back, find_frame};
use crate::turned::{Spoken, Turned};
use crate::working::write_for_room;
use disk_trait::Block;
use fault_core::{AgainWhy, Next, advance};
use vm_services::{ServeNext, ServeWhy, serve};
use vm_state::{Carrier, State};
use vm_types::{Proc, Ref, Seat, Service};

/// How a turn went in which work was done, if there was any.
pub(crate) fn worked(some: bool) -> Turned
    ensures { result ≡ turned_by some }
{
    if some { Turned::Made } else { Turned::Waits }
}

/// What another step waits for that the seat can work for itself.
#[derive(Clone, Copy)]
enum Need {
    /// The process has to be resident.
    Process,
    /// The modified list is too long.
    Room,
    /// A frame has to be free.
    Frame,
    /// Nothing: only another seat can end the wait.
    Nothing,
}

/// What a reference waits for.
fn reference_needs(why: AgainWhy) -> Need
    ensures { (config : Config) (past : List Entry) (p : ℕ) (r : Ref) (shown : Option Reply) → Some (Next.Again why) ≡ returned (reference_answer config past p r) shown → IsNeed result config past p (Request.Reference r) }
{
    match why {
        AgainWhy::NotResident => Need::Process,
        AgainWhy::ModifiedFull => Need::Room,
        AgainWhy::NoFrame => Need::Frame,
        AgainWhy::Collided | AgainWhy::BlockBusy | AgainWhy::Charging => Need::Nothing,
    }
}

/// What a service waits for.
fn service_needs(why: ServeWhy) -> Need
    ensures { (config : Config) (past : List Entry) (p : ℕ) (s : Service) (shown : Option Answer) → Some (ServeNext.Again why) ≡ served_as (service_answer config past p s) shown → IsNeed result config past p (Request.Service s) }
{
    match why {
        ServeWhy::NotResident => Need::Process,
        ServeWhy::ModifiedFull => Need::Room,
        ServeWhy::InFlight => Need::Nothing,
    }
}

/// Does what a process's step waits for, if there is anything to do. Returns whether there is.
fn meet<B: Block>(state: &mut State<B>, p: Proc, need: Need, carrier: &mut Carrier<B>) -> bool
    requires start { MayStart state.old carrier.old }
    requires process { p.0 < length state.old.config.procs }
    ensures tried { HasTried B.seen B.tells state.old state.new carrier.old carrier.new result }
    ensures step { IsStepWhere state.old state.new carrier.old.seat (WaitsOwn p (IsNeed need)) }
{
    match need {
        Need::Process => bring_back(state, p, carrier),
        Need::Room => write_for_room(state, carrier),
        Need::Frame => find_frame(state, p, carrier),
        Need::Nothing => false,
    }
}

/// The next step for a reference of a process whose seat has nothing open.
pub(crate) fn refer_next<B: Block>(
    state: &mut State<B>,
    carrier: &mut Carrier<B>,
    p: Proc,
    r: Ref,
) -> Turned
    requires step { MayStep state.old p (Request.Reference r) carrier.old }
    ensures turned { HasTurned B.seen B.tells state.old state.new (seat_of p) (Some (Request.Reference r)) result carrier.new }
    ensures step { IsStep state.old.config state.old.past state.new.past p.0 (Some (Request.Reference r)) }
    ensures begun { (carrier.new.lifts ≡ [] → ⊥) → IsBegunFor state.new.past p.0 (Request.Reference r) (is_reads result) }
{
    let seat = Seat(p.0);
    match advance(state, seat, p, r, carrier) {
        Next::Answered(reply) => Turned::Spoke(Spoken::Reply(reply)),
        Next::Carry => Turned::Reads,
        Next::More => Turned::Made,
        Next::Again(why) => worked(meet(state, p, reference_needs(why), carrier)),
        Next::Room => unreachable!(),
    }
}

/// The next step for a service of a process whose seat has nothing open.
pub(crate) fn serve_next<B: Block>(
    state: &mut State<B>,
    carrier: &mut Carrier<B>,
    p: Proc,
    s: Service,
) -> Turned
    requires step { MayStep state.old p (Request.Service s) carrier.old }
    ensures turned { HasTurned B.seen B.tells state.old state.new (seat_of p) (Some (Request.Service s)) result carrier.new }
    ensures step { IsStep state.old.config state.old.past state.new.past p.0 (Some (Request.Service s)) }
    ensures begun { (carrier.new.lifts ≡ [] → ⊥) → IsBegunFor state.new.past p.0 (Request.Service s) false }
{
    let seat = Seat(p.0);
    match serve(state, seat, p, s) {
        ServeNext::Answered(answer) => Turned::Spoke(Spoken::Answer(answer)),
        ServeNext::More => Turned::Made,
        ServeNext::Again(why) => worked(meet(state, p, service_needs(why), carrier)),
        ServeNext::Room => unreachable!(),
    }
}
