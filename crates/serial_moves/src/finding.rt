ghost use Rattle.std.specs.Prelude.{◌≡◌, ◌<◌, ◌≤◌, ℕ, IfOk, OnErr, IfSome, length};
ghost use Rattle.std.specs.Option.{option_map};
ghost use Rattle.pager_policy.specs.Moves.{Doing as DoingIs, Move};
ghost use Rattle.pager_policy.specs.Policy.{Ends as EndsIs, finding_move, leaving_other};
ghost use Rattle.vm_state.specs.History.{pager};
ghost use Rattle.serial_moves.specs.Carriers.{MayMove};
ghost use Rattle.serial_moves.specs.Controls.{Moves, doing_in, ends_in, number_of};
ghost use Rattle.serial_moves.specs.Finders.{IsFinder, finding_by, found_move, is_other_leaving};
ghost use Rattle.carried_landings.specs.Moved.{IsMoveHere};

use crate::carrying::write_for_room;
use crate::control::{Control, Doing, Step};
use crate::leaving::leave;
use disk_trait::Block;
use vm_state::{Carrier, State};
use vm_swapper::victim;
use vm_types::{Proc, ProcStatus, Seat};

/// Who finds a frame.
#[derive(Clone, Copy, Debug, PartialEq, Eq)]
pub enum Finder {
    /// The modified page writer: pages are on the modified list.
    Writer,
    /// This process, which is leaving, goes on to leave.
    Leaving(Proc),
    /// This process turns to leaving.
    Victim(Proc),
}

/// How many processes there are: at most 16.
pub fn processes<B: Block>(state: &State<B>) -> u32
    ensures count { result ≡ length state.now.config.procs }
    ensures few { result ≤ 16 }
{
    state.run_law();
    state.config().procs.items().len() as u32
}

/// Whether a process of the configuration is leaving, and is another one than this.
fn is_other_leaving<B: Block>(state: &State<B>, p: Proc, q: Proc) -> bool
    requires { q.0 < length state.now.config.procs }
    ensures { result ≡ is_other_leaving (pager state.now) p.0 q.0 }
{
    if state.status(q).is_leaving() {
        q.0 != p.0
    } else {
        false
    }
}

/// The lowest process that is leaving, but for this one; none if there is none.
fn leaving_other<B: Block>(state: &State<B>, p: Proc) -> Option<Proc>
    ensures { option_map number_of result ≡ leaving_other state.now.config (pager state.now) p.0 }
{
    for n in 0..processes(state) {
        let q = Proc(n);
        if is_other_leaving(state, p, q) {
            return Some(q);
        }
    }
    None
}

/// Who finds a frame for a process (any number); none if nobody can.
pub fn who_finds<B: Block>(state: &State<B>, p: Proc) -> Option<Finder>
    ensures move_is { (seat : ℕ) (ends : EndsIs) (doing : DoingIs) (none : Move)
        → finding_move state.now.config state.now.past (pager state.now) seat p.0 ends doing none
        ≡ found_move state.now.config state.now.past (pager state.now) seat ends doing none result }
    ensures there { IfSome result (IsFinder state.now) }
{
    if state.modified_len() > 0 {
        return Some(Finder::Writer);
    }
    match leaving_other(state, p) {
        Some(q) => Some(Finder::Leaving(q)),
        None => match victim(state, Some(p)) {
            Some(q) => Some(Finder::Victim(q)),
            None => None,
        },
    }
}

/// The one who finds a frame does what is next for it.
///
/// # Errors
/// `NoMemory` if out of memory: room for fewer than 64 entries is left then.
#[inline(always)]
pub fn find_frame<B: Block>(
    state: &mut State<B>,
    seat: Seat,
    finder: Finder,
    doing: Doing,
    carrier: &mut Carrier<B>,
) -> Step
    requires may { MayMove state.old seat carrier.old }
    requires there { IsFinder state.old finder }
    requires here { IsMoveHere state.old (finding_by state.old.config state.old.past (pager state.old) seat.0 (ends_in doing) (doing_in doing) finder) }
    ensures carrier { carrier.new ≡ carrier.old }
    ensures moved { IfOk result (Moves B.tells.content state.old state.new
        (finding_by state.old.config state.old.past (pager state.old) seat.0 (ends_in doing) (doing_in doing) finder)) }
    ensures memory { OnErr result (state.new.spare < 64) }
{
    match finder {
        Finder::Writer => {
            let next = Control {
                doing,
                leaving: None,
            };
            Ok(Some(write_for_room(state, seat, next, carrier)?))
        }
        Finder::Leaving(q) => leave(state, seat, q, doing, carrier),
        Finder::Victim(q) => {
            state.turn(seat, q, ProcStatus::Leaving);
            Ok(Some(Control {
                doing,
                leaving: Some(q),
            }))
        }
    }
}
