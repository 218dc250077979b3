ghost use Rattle.std.specs.Prelude.{◌≡◌, ◌<◌, None, false, length};
ghost use Rattle.std.specs.Option.{option_map};
ghost use Rattle.vm_types.specs.declared.names.ProcStatus.TheVariants as status;
ghost use Rattle.pager_policy.specs.Swap.{victim_gives};
ghost use Rattle.vm_state.specs.History.{pager};
ghost use Rattle.call_begins.specs.MayBegin.{empty};
ghost use Rattle.vm_swapper.specs.Victims.{process_number};
ghost use Rattle.seat_laws.specs.FreeSeat.{IsFreeSeat};
ghost use Rattle.seat_steps.specs.Waits.{WaitsForFrame, WaitsForProcess};
ghost use Rattle.seat_turns.specs.Stepping.{IsStepWhere, MayChoose, WaitsOwn};
ghost use Rattle.seat_turns.specs.Worked.{HasTried, HasWorked, MayStart};

use crate::processes::{coming_process, lowest_leaving};
use crate::working::{leave, write_for_room};
use call_laws::turns_are_legal;
use disk_trait::Block;
use vm_state::{Carrier, State};
use vm_swapper::{Swap, SwapWhy, come_some, victim};
use vm_types::{Proc, ProcStatus, Seat};

/// The process that is chosen to leave, but not this one, turns to leaving. Returns whether there is one.
pub(crate) fn turn_victim<B: Block>(state: &mut State<B>, seat: Seat, but: Option<Proc>) -> bool
    requires free { IsFreeSeat state.old seat }
    ensures worked { HasWorked B.seen B.tells state.old state.new seat (empty seat) }
    ensures none { result ≡ false → state.new ≡ state.old }
    ensures step { IsStepWhere state.old state.new seat (MayChoose (option_map process_number but)) }
    ensures nobody { result ≡ false → victim_gives state.old.config state.old.past (pager state.old) (option_map process_number but) ≡ None }
{
    state.run_law();
    turns_are_legal();
    match victim(state, but) {
        Some(q) => {
            state.turn(seat, q, ProcStatus::Leaving);
            true
        }
        None => false,
    }
}

/// Works for a frame that a process needs: pages are written, or another process leaves. Returns whether
/// there was anything to do.
pub(crate) fn find_frame<B: Block>(state: &mut State<B>, p: Proc, carrier: &mut Carrier<B>) -> bool
    requires start { MayStart state.old carrier.old }
    ensures tried { HasTried B.seen B.tells state.old state.new carrier.old carrier.new result }
    ensures step { IsStepWhere state.old state.new carrier.old.seat (WaitsOwn p WaitsForFrame) }
{
    if state.modified_len() > 0 {
        return write_for_room(state, carrier);
    }
    match lowest_leaving(state, Some(p)) {
        Some(q) => leave(state, q, carrier),
        None => turn_victim(state, carrier.seat(), Some(p)),
    }
}

/// A process that is gone turns to coming; one that is coming already turns to leaving first, unless a
/// transfer of its seat or for it is open. Returns whether one was turned.
fn turn_gone<B: Block>(state: &mut State<B>, seat: Seat, p: Proc) -> bool
    requires free { IsFreeSeat state.old seat }
    requires process { p.0 < length state.old.config.procs }
    requires gone { (pager state.old).status p.0 ≡ status.Gone }
    ensures worked { HasWorked B.seen B.tells state.old state.new seat (empty seat) }
    ensures none { result ≡ false → state.new ≡ state.old }
    ensures step { IsStepWhere state.old state.new seat (WaitsOwn p WaitsForProcess) }
{
    state.run_law();
    turns_are_legal();
    match coming_process(state) {
        Some(q) => {
            if state.busy(Seat(q.0)) {
                return false;
            }
            if state.has_come(q) {
                return false;
            }
            state.turn(seat, q, ProcStatus::Leaving);
            true
        }
        None => {
            state.turn(seat, p, ProcStatus::Coming);
            true
        }
    }
}

/// A process that is coming comes on. Returns whether it could, or a frame was worked for.
fn come<B: Block>(state: &mut State<B>, p: Proc, carrier: &mut Carrier<B>) -> bool
    requires start { MayStart state.old carrier.old }
    requires process { p.0 < length state.old.config.procs }
    requires coming { (pager state.old).status p.0 ≡ status.Coming }
    ensures tried { HasTried B.seen B.tells state.old state.new carrier.old carrier.new result }
    ensures step { IsStepWhere state.old state.new carrier.old.seat (WaitsOwn p WaitsForProcess) }
{
    match come_some(state, carrier.seat(), p, carrier) {
        Swap::Carry => true,
        Swap::More => true,
        Swap::Settled => true,
        Swap::Again(SwapWhy::NoFrame) => find_frame(state, p, carrier),
        Swap::Again(SwapWhy::InFlight) => false,
        Swap::Again(SwapWhy::ModifiedFull) => false,
        Swap::Room => unreachable!(),
    }
}

/// Works for a process of the configuration that isn't resident, so that it will be: by its status.
/// Returns whether there was anything to do.
pub(crate) fn bring_back<B: Block>(state: &mut State<B>, p: Proc, carrier: &mut Carrier<B>) -> bool
    requires start { MayStart state.old carrier.old }
    requires process { p.0 < length state.old.config.procs }
    ensures tried { HasTried B.seen B.tells state.old state.new carrier.old carrier.new result }
    ensures step { IsStepWhere state.old state.new carrier.old.seat (WaitsOwn p WaitsForProcess) }
{
    match state.status(p) {
        ProcStatus::Resident => false,
        ProcStatus::Leaving => leave(state, p, carrier),
        ProcStatus::Gone => turn_gone(state, carrier.seat(), p),
        ProcStatus::Coming => come(state, p, carrier),
    }
}
