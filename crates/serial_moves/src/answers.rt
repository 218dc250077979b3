ghost use Rattle.std.specs.Prelude.{◌≡◌, ◌<◌, ◌&&◌, ℕ, true, None, IfOk, OnErr, IfSome};
ghost use Rattle.std.specs.Option.{option_map};
ghost use Rattle.pager_policy.specs.Moves.{asking, control, freeing};
ghost use Rattle.pager_policy.specs.Policy.{asking_move, ends_part, freeing_move, is_freeing, is_saving, saving_move, swapper_of};
ghost use Rattle.vm_state.specs.History.{pager};
ghost use Rattle.serial_laws.specs.Controlled.{IsLeft};
ghost use Rattle.serial_moves.specs.Carriers.{AreIdle, MayFollow};
ghost use Rattle.serial_moves.specs.Controls.{ComesTo, Moves, number_of};
ghost use Rattle.serial_moves.specs.Finders.{IsFinder, found_move};
ghost use Rattle.carried_landings.specs.Moved.{IsMoveHere, IsSteady};

use crate::carrying::carry_on;
use crate::control::{AfterAnswer, Control, Doing, Step};
use crate::finding::{Finder, find_frame, processes, who_finds};
use crate::leaving::leave;
use crate::requests::ask;
use crate::tasks::next_task;
use disk_trait::Block;
use modified_writer::{Begin, Reason, begin};
use vm_state::{Carrier, State};
use vm_types::{NoMemory, Proc, Seat};

/// The next step for the next request; none if each was answered.
///
/// # Errors
/// `NoMemory` if out of memory: room for fewer than 64 entries is left then.
#[inline(always)]
pub fn ask_next<B: Block>(
    state: &mut State<B>,
    leaving: Option<Proc>,
    carriers: &mut [Carrier<B>],
) -> Step
    requires steady { IsSteady state.old }
    requires left { IfSome leaving (λ q. IsLeft state.old.config (pager state.old) q.0) }
    requires carriers { AreIdle state.old carriers.old }
    requires here { IsMoveHere state.old (asking_move state.old.config state.old.past (pager state.old) (option_map number_of leaving)) }
    ensures carriers { carriers.new ≡ carriers.old }
    ensures moved { IfOk result (Moves B.tells.content state.old state.new
        (asking_move state.old.config state.old.past (pager state.old) (option_map number_of leaving))) }
    ensures memory { OnErr result (state.new.spare < 64) }
{
    if let Some(task) = next_task(state) {
        return ask(state, leaving, task, &mut carriers[task.proc.0 as usize]);
    }
    Ok(None)
}

/// Whether the free list is shorter than the swapper wants.
fn is_freeing<B: Block>(state: &State<B>, begun: bool) -> bool
    ensures { result ≡ is_freeing state.now.config (pager state.now) begun }
{
    if begun {
        state.free_len() < state.config().params.freegoal
    } else {
        state.free_len() < state.config().params.freelim
    }
}

/// Whether the swapper's part goes on, or begins.
fn is_short<B: Block>(state: &State<B>, begun: bool) -> bool
    ensures { result ≡ (is_freeing state.now.config (pager state.now) begun && is_freeing state.now.config (pager state.now) true) }
{
    if is_freeing(state, begun) {
        is_freeing(state, true)
    } else {
        false
    }
}

/// Who finds a frame in the swapper's part; none if it is over.
fn finder<B: Block>(state: &State<B>, begun: bool, p: Proc) -> Option<Finder>
    ensures move_is { (seat : ℕ) → seat ≡ swapper_of state.now.config
        → freeing_move state.now.config state.now.past (pager state.now) None begun p.0
        ≡ found_move state.now.config state.now.past (pager state.now) seat (ends_part (control asking)) (freeing true p.0)
        (asking_move state.now.config state.now.past (pager state.now) None) result }
    ensures there { IfSome result (IsFinder state.now) }
{
    if is_short(state, begun) {
        who_finds(state, p)
    } else {
        None
    }
}

/// The swapper's part after an answer to a process.
///
/// # Errors
/// `NoMemory` if out of memory: room for fewer than 64 entries is left then.
#[inline(always)]
pub fn free<B: Block>(
    state: &mut State<B>,
    leaving: Option<Proc>,
    begun: bool,
    p: Proc,
    carriers: &mut [Carrier<B>],
) -> Result<AfterAnswer, NoMemory>
    requires may { MayFollow state.old p carriers.old }
    requires left { IfSome leaving (λ q. IsLeft state.old.config (pager state.old) q.0) }
    requires here { IsMoveHere state.old (freeing_move state.old.config state.old.past (pager state.old) (option_map number_of leaving) begun p.0) }
    ensures carriers { carriers.new ≡ carriers.old }
    ensures comes { IfOk result (ComesTo B.tells.content state.old state.new
        (freeing_move state.old.config state.old.past (pager state.old) (option_map number_of leaving) begun p.0)) }
    ensures memory { OnErr result (state.new.spare < 64) }
{
    let seat = Seat(processes(state) + 1);
    let doing = Doing::Freeing {
        begun: true,
        process: p,
    };
    match leaving {
        Some(q) => {
            let next = leave(state, seat, q, doing, &mut carriers[seat.0 as usize])?;
            Ok(AfterAnswer::Made(next))
        }
        None => match finder(state, begun, p) {
            Some(found) => {
                let next = find_frame(state, seat, found, doing, &mut carriers[seat.0 as usize])?;
                Ok(AfterAnswer::Made(next))
            }
            None => Ok(AfterAnswer::Over(None)),
        },
    }
}

/// Whether the writer's part goes on, or begins.
fn is_saving<B: Block>(state: &State<B>, begun: bool) -> bool
    ensures { result ≡ is_saving state.now.config (pager state.now) begun }
{
    begun || state.config().params.hilimit < state.modified_len()
}

/// The modified page writer's part after an answer to a process, and then the swapper's.
///
/// # Errors
/// `NoMemory` if out of memory: room for fewer than 64 entries is left then.
#[inline(always)]
pub fn save<B: Block>(
    state: &mut State<B>,
    begun: bool,
    p: Proc,
    carriers: &mut [Carrier<B>],
) -> Result<AfterAnswer, NoMemory>
    requires may { MayFollow state.old p carriers.old }
    requires here { IsMoveHere state.old (saving_move state.old.config state.old.past (pager state.old) begun p.0) }
    ensures carriers { carriers.new ≡ carriers.old }
    ensures comes { IfOk result (ComesTo B.tells.content state.old state.new
        (saving_move state.old.config state.old.past (pager state.old) begun p.0)) }
    ensures memory { OnErr result (state.new.spare < 64) }
{
    if !is_saving(state, begun) {
        return free(state, None, false, p, carriers);
    }
    let seat = Seat(processes(state));
    match begin(state, seat, Reason::High, &mut carriers[seat.0 as usize]) {
        Begin::Carry => {
            let saving = Control {
                doing: Doing::Saving {
                    begun: true,
                    process: p,
                },
                leaving: None,
            };
            let next = carry_on(state, seat, saving, &mut carriers[seat.0 as usize])?;
            Ok(AfterAnswer::Made(Some(next)))
        }
        Begin::Nothing => free(state, None, false, p, carriers),
        Begin::Room => unreachable!(),
    }
}
