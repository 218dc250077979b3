ghost use Rattle.std.specs.Prelude.{◌≡◌, ◌<◌, None, IfOk, OnErr, IfSome, length};
ghost use Rattle.std.specs.Option.{option_map};
ghost use Rattle.vm_types.specs.WellFormed.{IsServiceOf, IsWellFormedReference, IsWellFormedService};
ghost use Rattle.vm_types.specs.declared.names.ProcStatus.TheVariants as status;
ghost use Rattle.vm_types.specs.declared.reference.Ref.{Ref};
ghost use Rattle.vm_types.specs.declared.service.Request.{Request};
ghost use Rattle.pager_policy.specs.Policy.{asking_move, coming_process, gone_move};
ghost use Rattle.vm_state.specs.History.{pager};
ghost use Rattle.serial_moves.specs.Carriers.{MayMove};
ghost use Rattle.serial_moves.specs.Controls.{Moves, number_of};
ghost use Rattle.carried_landings.specs.Moved.{IsMoveHere, IsSteady};
ghost use Rattle.serial_moves.specs.Requests.{IsNextRare, IsRare, IsResidentReference, MayAskNext, MayAskTask, asked_for, come_move, finding_for, resident_for};

use crate::carrying::{ASKING, answered, carry_on, carry_reads, write_for_room};
use crate::control::{Control, Doing, Step};
use crate::finding::{find_frame, processes, who_finds};
use crate::leaving::leave;
use crate::tasks::next_task;
use disk_trait::Block;
use fault_core::{AgainWhy, Next, advance};
use vm_services::{ServeNext, ServeWhy};
use vm_state::{Carrier, State};
use vm_swapper::{Swap, SwapWhy, come_some};
use vm_types::{Proc, ProcStatus, Ref, Request, Seat, Service, Task};

/// The process that is coming; none if none is.
fn coming_process<B: Block>(state: &State<B>) -> Option<Proc>
    ensures { option_map number_of result ≡ coming_process state.now.config (pager state.now) }
{
    for q in 0..processes(state) {
        if state.status(Proc(q)).is_coming() {
            return Some(Proc(q));
        }
    }
    None
}

/// A process that is gone turns to coming; one that is coming already turns to leaving first.
fn gone<B: Block>(state: &mut State<B>, seat: Seat) -> Option<Control>
    requires steady { IsSteady state.old }
    requires here { IsMoveHere state.old (gone_move seat.0 (coming_process state.old.config (pager state.old))) }
    ensures { Moves B.tells.content state.old state.new (gone_move seat.0 (coming_process state.old.config (pager state.old))) result }
{
    match coming_process(state) {
        Some(q) => {
            state.turn(seat, q, ProcStatus::Leaving);
            Some(Control {
                doing: Doing::Asking,
                leaving: Some(q),
            })
        }
        None => {
            state.turn(seat, Proc(seat.0), ProcStatus::Coming);
            Some(ASKING)
        }
    }
}

/// A process that is coming comes on.
///
/// # Errors
/// `NoMemory` if out of memory: room for fewer than 64 entries is left then.
fn come<B: Block>(state: &mut State<B>, seat: Seat, carrier: &mut Carrier<B>) -> Step
    requires may { MayMove state.old seat carrier.old }
    requires process { seat.0 < length state.old.config.procs }
    requires coming { (pager state.old).status seat.0 ≡ status.Coming }
    requires here { IsMoveHere state.old (come_move state.old seat.0) }
    ensures carrier { carrier.new ≡ carrier.old }
    ensures moved { IfOk result (Moves B.tells.content state.old state.new (come_move state.old seat.0)) }
    ensures memory { OnErr result (state.new.spare < 64) }
{
    match come_some(state, seat, Proc(seat.0), carrier) {
        Swap::Carry => Ok(Some(carry_on(state, seat, ASKING, carrier)?)),
        Swap::More => Ok(Some(ASKING)),
        Swap::Settled => Ok(Some(ASKING)),
        Swap::Again(why) => match why {
            SwapWhy::NoFrame => find_for_request(state, seat, carrier),
            SwapWhy::InFlight => Ok(None),
            SwapWhy::ModifiedFull => Ok(None),
        },
        Swap::Room => unreachable!(),
    }
}

/// A frame is found for the request of the seat's process.
///
/// # Errors
/// `NoMemory` if out of memory: room for fewer than 64 entries is left then.
#[inline(always)]
fn find_for_request<B: Block>(state: &mut State<B>, seat: Seat, carrier: &mut Carrier<B>) -> Step
    requires may { MayMove state.old seat carrier.old }
    requires here { IsMoveHere state.old (finding_for state.old seat.0) }
    ensures carrier { carrier.new ≡ carrier.old }
    ensures moved { IfOk result (Moves B.tells.content state.old state.new (finding_for state.old seat.0)) }
    ensures memory { OnErr result (state.new.spare < 64) }
{
    match who_finds(state, Proc(seat.0)) {
        Some(found) => find_frame(state, seat, found, Doing::Asking, carrier),
        None => Ok(None),
    }
}

/// The next step for a reference of a process that is resident.
///
/// # Errors
/// `NoMemory` if out of memory: room for fewer than 64 entries is left then.
#[inline(always)]
fn refer<B: Block>(state: &mut State<B>, seat: Seat, r: Ref, carrier: &mut Carrier<B>) -> Step
    requires may { MayMove state.old seat carrier.old }
    requires process { seat.0 < length state.old.config.procs }
    requires formed { IsWellFormedReference r }
    requires here { IsMoveHere state.old (resident_for state.old seat.0 (Request.Reference r)) }
    ensures carrier { carrier.new ≡ carrier.old }
    ensures moved { IfOk result (Moves B.tells.content state.old state.new (resident_for state.old seat.0 (Request.Reference r))) }
    ensures memory { OnErr result (state.new.spare < 64) }
{
    let p = Proc(seat.0);
    match advance(state, seat, p, r, carrier) {
        Next::Answered(_) => return Ok(Some(answered(p))),
        Next::Carry => return Ok(Some(carry_reads(state, seat, carrier)?)),
        Next::More => return Ok(Some(ASKING)),
        Next::Again(why) => match why {
            AgainWhy::ModifiedFull => {
                return Ok(Some(write_for_room(state, seat, ASKING, carrier)?));
            }
            AgainWhy::NoFrame => return find_for_request(state, seat, carrier),
            _ => return Ok(None),
        },
        Next::Room => unreachable!(),
    }
}

/// The next step for a service of a process that is resident.
///
/// # Errors
/// `NoMemory` if out of memory: room for fewer than 64 entries is left then.
fn serve<B: Block>(state: &mut State<B>, seat: Seat, s: Service, carrier: &mut Carrier<B>) -> Step
    requires may { MayMove state.old seat carrier.old }
    requires process { seat.0 < length state.old.config.procs }
    requires formed { IsWellFormedService s }
    requires known { IsServiceOf state.old.config.version s }
    requires here { IsMoveHere state.old (resident_for state.old seat.0 (Request.Service s)) }
    ensures carrier { carrier.new ≡ carrier.old }
    ensures moved { IfOk result (Moves B.tells.content state.old state.new (resident_for state.old seat.0 (Request.Service s))) }
    ensures memory { OnErr result (state.new.spare < 64) }
{
    let p = Proc(seat.0);
    match vm_services::serve(state, seat, p, s) {
        ServeNext::Answered(_) => Ok(Some(answered(p))),
        ServeNext::More => Ok(Some(ASKING)),
        ServeNext::Again(why) => match why {
            ServeWhy::ModifiedFull => Ok(Some(write_for_room(state, seat, ASKING, carrier)?)),
            _ => Ok(None),
        },
        ServeNext::Room => unreachable!(),
    }
}

/// The next step for a request that isn't a reference of a resident process, by the status of its
/// process.
///
/// # Errors
/// `NoMemory` if out of memory: room for fewer than 64 entries is left then.
#[inline(always)]
fn by_status<B: Block>(state: &mut State<B>, task: Task, carrier: &mut Carrier<B>) -> Step
    requires may { MayAskTask state.old None task carrier.old }
    requires rare { IsRare state.old task }
    ensures carrier { carrier.new ≡ carrier.old }
    ensures moved { IfOk result (Moves B.tells.content state.old state.new (asked_for state.old None task)) }
    ensures memory { OnErr result (state.new.spare < 64) }
{
    let seat = Seat(task.proc.0);
    match state.status(task.proc) {
        ProcStatus::Resident => match task.request {
            Request::Reference(_) => unreachable!(),
            Request::Service(s) => serve(state, seat, s, carrier),
        },
        ProcStatus::Leaving => leave(state, seat, task.proc, Doing::Asking, carrier),
        ProcStatus::Gone => Ok(gone(state, seat)),
        ProcStatus::Coming => come(state, seat, carrier),
    }
}

/// The reference that is asked for, if nothing is left and its process is resident, as mostly.
#[inline(always)]
fn resident_reference<B: Block>(state: &State<B>, leaving: Option<Proc>, task: Task) -> Option<Ref>
    requires { (task.proc).0 < length state.now.config.procs }
    ensures some { IfSome result (λ r. IsResidentReference state.now leaving task r) }
    ensures none { result ≡ None → leaving ≡ None → IsRare state.now task }
{
    match leaving {
        Some(_) => None,
        None => match task.request {
            Request::Reference(r) => {
                if state.status(task.proc).is_resident() {
                    Some(r)
                } else {
                    None
                }
            }
            Request::Service(_) => None,
        },
    }
}

/// The next step for a request that isn't a reference of a resident process while nothing is left.
///
/// # Errors
/// `NoMemory` if out of memory: room for fewer than 64 entries is left then.
#[inline(always)]
fn ask_rare<B: Block>(
    state: &mut State<B>,
    leaving: Option<Proc>,
    task: Task,
    carrier: &mut Carrier<B>,
) -> Step
    requires may { MayAskTask state.old (option_map number_of leaving) task carrier.old }
    requires rare { leaving ≡ None → IsRare state.old task }
    ensures carrier { carrier.new ≡ carrier.old }
    ensures moved { IfOk result (Moves B.tells.content state.old state.new (asked_for state.old (option_map number_of leaving) task)) }
    ensures memory { OnErr result (state.new.spare < 64) }
{
    match leaving {
        Some(q) => leave(state, Seat(task.proc.0), q, Doing::Asking, carrier),
        None => by_status(state, task, carrier),
    }
}

/// The same for the next request, which it reads itself, so that who calls it needs no whole task.
///
/// # Errors
/// `NoMemory` if out of memory: room for fewer than 64 entries is left then.
#[inline(never)]
fn ask_other<B: Block>(
    state: &mut State<B>,
    leaving: Option<Proc>,
    carrier: &mut Carrier<B>,
) -> Step
    requires may { MayAskNext state.old (option_map number_of leaving) carrier.old }
    requires rare { leaving ≡ None → IsNextRare state.old }
    ensures carrier { carrier.new ≡ carrier.old }
    ensures moved { IfOk result (Moves B.tells.content state.old state.new
        (asking_move state.old.config state.old.past (pager state.old) (option_map number_of leaving))) }
    ensures memory { OnErr result (state.new.spare < 64) }
{
    if let Some(task) = next_task(state) {
        return ask_rare(state, leaving, task, carrier);
    }
    Ok(None)
}

/// The next step for the next request: a process that is being left comes first.
///
/// # Errors
/// `NoMemory` if out of memory: room for fewer than 64 entries is left then.
#[inline(always)]
pub fn ask<B: Block>(
    state: &mut State<B>,
    leaving: Option<Proc>,
    task: Task,
    carrier: &mut Carrier<B>,
) -> Step
    requires may { MayAskTask state.old (option_map number_of leaving) task carrier.old }
    ensures carrier { carrier.new ≡ carrier.old }
    ensures moved { IfOk result (Moves B.tells.content state.old state.new (asked_for state.old (option_map number_of leaving) task)) }
    ensures memory { OnErr result (state.new.spare < 64) }
{
    match resident_reference(state, leaving, task) {
        Some(r) => refer(state, Seat(task.proc.0), r, carrier),
        None => ask_other(state, leaving, carrier),
    }
}
