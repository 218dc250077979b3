ghost use Rattle.std.specs.Prelude.{◌≡◌, ◌+◌, ◌<◌, ◌≤◌, ◌↔◌, length};
ghost use Rattle.vm_types.specs.declared.limits.TheConstants.{MOST_EXTENT};
ghost use Rattle.pager_policy.specs.Swap.{leave_gives};
ghost use Rattle.policy_tables.specs.LeaveCases.{leave_cases};
ghost use Rattle.policy_tables.specs.Rows.{IsByCases};
ghost use Rattle.vm_types.specs.declared.names.ProcStatus.TheVariants as status;
ghost use Rattle.call_begins.specs.MayBegin.{MayBegin, empty};
ghost use Rattle.vm_state.specs.History.{owed, pager};
ghost use Rattle.vm_swapper.specs.Cases.{at_gone, at_leave, at_slot, at_writes};
ghost use Rattle.vm_swapper.specs.Swaps.{MaySwap, Swaps};
ghost use Rattle.vm_swapper.specs.declared.swap.Swap.{Swap};

use crate::looks::{Look, first};
use crate::runs::{Run, Wanted, gathered};
use crate::seen::see;
use crate::swap::{Swap, SwapWhy};
use crate::transfers::write_all;
use call_begins::{goes_to, is_stopped};
use disk_trait::Block;
use vm_journal::EvictWhy;
use vm_state::{Carrier, State};
use vm_types::{Addr, PAGE_BYTES, Proc, ProcStatus, Seat};

/// Makes the next entries for a process that leaves memory, by any seat without an open transfer: by the
/// first case that applies. There may be room for too few entries; else a shared page is evicted, then a
/// private page that is saved in its slot's swap block; then a run of private pages is written there; and
/// a process without pages is gone. Pinned pages stay. The cases are the rows of a table, `leave_cases`.
/// Doesn't allocate.
pub fn leave_some<B: Block>(
    state: &mut State<B>,
    seat: Seat,
    p: Proc,
    carrier: &mut Carrier<B>,
) -> Swap
    requires idle { MayBegin state.old seat }
    requires process { p.0 < length state.old.config.procs }
    requires leaving { (pager state.old).status p.0 ≡ status.Leaving }
    requires carrier { carrier.old ≡ empty seat }
    ensures room { (result ≡ Swap.Room) ↔ (state.old.spare < owed state.old.past + 64) }
    ensures same { result ≡ Swap.Room → (state.new ≡ state.old) × (carrier.new ≡ carrier.old) }
    ensures gives { owed state.old.past + 64 ≤ state.old.spare
        → Swaps B.seen B.tells state.old state.new seat (leave_gives state.old.config state.old.past (pager state.old) p.0) result
        carrier.old carrier.new }
    ensures by_table { owed state.old.past + 64 ≤ state.old.spare
        → IsByCases (leave_cases state.old.config state.old.past (pager state.old) p.0) (λ g. Swaps B.seen B.tells state.old state.new seat g result
        carrier.old carrier.new) }
{
    state.run_law();
    if state.spare() - state.owed() < 64 {
        return Swap::Room;
    }
    leave(state, seat, p, carrier)
}

/// A shared page is evicted first, then a page that is saved; then those that aren't saved are written. A
/// process with no such page is gone.
fn leave<B: Block>(state: &mut State<B>, seat: Seat, p: Proc, carrier: &mut Carrier<B>) -> Swap
    requires { MaySwap state.old seat p (at_leave state.old p.0) carrier.old }
    ensures { Swaps B.seen B.tells state.old state.new seat (at_leave state.old p.0) result carrier.old carrier.new }
{
    if let Some(n) = first(state, p, Look::Shared) {
        let run = Run { seat, p, slot: n };
        evict_at(state, run, carrier)
    } else if let Some(n) = first(state, p, Look::Saved) {
        let run = Run { seat, p, slot: n };
        evict_at(state, run, carrier)
    } else if let Some(n) = first(state, p, Look::Unsaved) {
        let run = Run { seat, p, slot: n };
        write_from(state, run, carrier)
    } else {
        turn_gone(state, seat, p, carrier)
    }
}

/// The page in a run's first slot is evicted, unless it would add to a modified list that is at its wait
/// limit.
fn evict_at<B: Block>(state: &mut State<B>, run: Run, carrier: &mut Carrier<B>) -> Swap
    requires { MaySwap state.old run.seat run.p (at_slot state.old (run.p).0 run.slot) carrier.old }
    ensures { Swaps B.seen B.tells state.old state.new run.seat (at_slot state.old (run.p).0 run.slot) result carrier.old carrier.new }
{
    match see(state, run.p, run.slot) {
        Some(x) => {
            let row = state.frame(x.frame);
            let to = goes_to(row);
            if is_stopped(state, x.frame, to) {
                Swap::Again(SwapWhy::ModifiedFull)
            } else {
                let a = Addr(PAGE_BYTES * x.vpn);
                state.evict(run.seat, run.p, a, x.frame, EvictWhy::Leave, to);
                Swap::More
            }
        }
        None => Swap::Again(SwapWhy::InFlight),
    }
}

/// The private pages in the slots of a run are written to the swap blocks.
fn write_from<B: Block>(state: &mut State<B>, run: Run, carrier: &mut Carrier<B>) -> Swap
    requires slot { run.slot < MOST_EXTENT }
    requires may { MaySwap state.old run.seat run.p (at_writes state.old (run.p).0 run.slot) carrier.old }
    ensures { Swaps B.seen B.tells state.old state.new run.seat (at_writes state.old (run.p).0 run.slot) result carrier.old carrier.new }
{
    state.run_law();
    let frames = gathered(state, run, state.config().params.wrtcluster, Wanted::Frame);
    write_all(state, run, frames.as_slice(), carrier);
    Swap::Carry
}

/// A process without pages but pinned ones is gone; one whose pages are in flight waits for them.
fn turn_gone<B: Block>(state: &mut State<B>, seat: Seat, p: Proc, carrier: &mut Carrier<B>) -> Swap
    requires { MaySwap state.old seat p (at_gone state.old p.0) carrier.old }
    ensures { Swaps B.seen B.tells state.old state.new seat (at_gone state.old p.0) result carrier.old carrier.new }
{
    if state.unpinned(p) > 0 {
        Swap::Again(SwapWhy::InFlight)
    } else {
        state.turn(seat, p, ProcStatus::Gone);
        Swap::Settled
    }
}
