ghost use Rattle.std.specs.Prelude.{◌≡◌, ◌<◌, [], false, IfOk, OnErr};
ghost use Rattle.pager_model.specs.Flights.{awaits_reuse, open_flights};
ghost use Rattle.pager_policy.specs.Moves.{asking, control, freeing, saving};
ghost use Rattle.pager_policy.specs.Policy.{unless_all_failed, unless_first_failed, writing_move};
ghost use Rattle.pager_policy.specs.Serial.{refusal_of};
ghost use Rattle.vm_state.specs.History.{MayAdd, added, entry_by, pager};
ghost use Rattle.call_begins.specs.MayBegin.{empty};
ghost use Rattle.serial_laws.specs.Laws.{IsRefusedLegally};
ghost use Rattle.carried_landings.specs.CarriedOn.{IsCarriedOn, IsLoaded, IsRefusedThere, MayRefuse};
ghost use Rattle.serial_moves.specs.Carriers.{MayMove};
ghost use Rattle.serial_moves.specs.Controls.{control_in, ends_in};
ghost use Rattle.carried_landings.specs.Moved.{IsMoveHere, IsMoved};

use crate::control::{Control, Doing};
use crate::tasks::next_task;
use carried_landings::{carry_and_land, prepare};
use disk_trait::Block;
use modified_writer::{Reason, begin};
use vm_services::refuse_service;
use vm_state::{Carrier, State};
use vm_types::{NoMemory, Proc, Request, Seat, Task};

/// At the next request, and nothing is left.
pub const ASKING: Control = Control {
    doing: Doing::Asking,
    leaving: None,
};

/// After the modified page writer's part, before the swapper's, for a process that was answered.
fn saved(p: Proc) -> Control
    ensures { control_in result ≡ control (freeing false p.0) }
{
    Control {
        doing: Doing::Freeing {
            begun: false,
            process: p,
        },
        leaving: None,
    }
}

/// After an answer to a process.
pub fn answered(p: Proc) -> Control
    ensures { control_in result ≡ control (saving false p.0) }
{
    Control {
        doing: Doing::Saving {
            begun: false,
            process: p,
        },
        leaving: None,
    }
}

/// A request is refused for a lost carrier. Doesn't allocate.
fn refuse_task<B: Block>(state: &mut State<B>, seat: Seat, task: Task)
    requires own { seat.0 ≡ (task.proc).0 }
    requires may { MayAdd state.old (entry_by seat (refusal_of task)) }
    ensures { state.new ≡ added state.old (entry_by seat (refusal_of task)) }
{
    match task.request {
        Request::Reference(r) => fault_core::refuse(state, seat, task.proc, r),
        Request::Service(s) => refuse_service(state, seat, task.proc, s),
    }
}

/// The next request is refused, for its carrier was lost.
///
/// # Errors
/// `NoMemory` if out of memory: room for fewer than 64 entries is left then.
pub fn refuse<B: Block>(state: &mut State<B>, seat: Seat) -> Result<Control, NoMemory>
    requires landed { open_flights state.old.past ≡ [] }
    requires reused { awaits_reuse state.old.past ≡ false }
    requires legal { IsRefusedLegally state.old.config state.old.past seat.0 }
    ensures refused { IfOk result (λ c. IsRefusedThere B.tells.content state.old state.new (control_in c)) }
    ensures memory { OnErr result (state.new.spare < 64) }
{
    prepare(state)?;
    match next_task(state) {
        Some(task) => {
            refuse_task(state, seat, task);
            Ok(answered(task.proc))
        }
        None => unreachable!(),
    }
}

/// What a seat has begun is carried and lands. Unless each lift failed the policy goes on there. Else the
/// request is refused, or the part of the work after an answer is over.
///
/// # Errors
/// `NoMemory` if out of memory: room for fewer than 64 entries is left then.
#[inline(always)]
pub fn carry_on<B: Block>(
    state: &mut State<B>,
    seat: Seat,
    next: Control,
    carrier: &mut Carrier<B>,
) -> Result<Control, NoMemory>
    requires loaded { IsLoaded B.seen B.tells state.old seat carrier.old }
    requires may { MayRefuse state.old.config state.old.past seat.0 (unless_all_failed (ends_in next.doing) (control_in next)) }
    ensures carrier { carrier.new ≡ empty seat }
    ensures carried { IfOk result (λ c. IsCarriedOn B.tells.content state.old state.new seat.0
        (unless_all_failed (ends_in next.doing) (control_in next)) (control_in c)) }
    ensures memory { OnErr result (state.new.spare < 64) }
{
    let landed = carry_and_land(state, carrier);
    state.run_law();
    if landed.all_failed {
        match next.doing {
            Doing::Asking => refuse(state, seat),
            Doing::Saving { process, .. } => Ok(saved(process)),
            Doing::Freeing { .. } => Ok(ASKING),
        }
    } else {
        Ok(next)
    }
}

/// The reads of a reference are carried and land. Unless the first one failed the policy asks again.
///
/// # Errors
/// `NoMemory` if out of memory: room for fewer than 64 entries is left then.
pub fn carry_reads<B: Block>(
    state: &mut State<B>,
    seat: Seat,
    carrier: &mut Carrier<B>,
) -> Result<Control, NoMemory>
    requires loaded { IsLoaded B.seen B.tells state.old seat carrier.old }
    requires may { MayRefuse state.old.config state.old.past seat.0 (unless_first_failed (control asking)) }
    ensures carrier { carrier.new ≡ empty seat }
    ensures carried { IfOk result (λ c. IsCarriedOn B.tells.content state.old state.new seat.0
        (unless_first_failed (control asking)) (control_in c)) }
    ensures memory { OnErr result (state.new.spare < 64) }
{
    let landed = carry_and_land(state, carrier);
    state.run_law();
    if landed.first_failed {
        refuse(state, seat)
    } else {
        Ok(ASKING)
    }
}

/// One write cluster is written, because room is needed.
///
/// # Errors
/// `NoMemory` if out of memory: room for fewer than 64 entries is left then.
#[inline(always)]
pub fn write_for_room<B: Block>(
    state: &mut State<B>,
    seat: Seat,
    next: Control,
    carrier: &mut Carrier<B>,
) -> Result<Control, NoMemory>
    requires may { MayMove state.old seat carrier.old }
    requires here { IsMoveHere state.old (writing_move state.old.config (pager state.old) seat.0 (ends_in next.doing) (control_in next)) }
    ensures carrier { carrier.new ≡ carrier.old }
    ensures moved { IfOk result (λ c. IsMoved B.tells.content state.old state.new
        (writing_move state.old.config (pager state.old) seat.0 (ends_in next.doing) (control_in next)) (control_in c)) }
    ensures memory { OnErr result (state.new.spare < 64) }
{
    begin(state, seat, Reason::Need, carrier);
    carry_on(state, seat, next, carrier)
}
