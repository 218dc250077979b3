ghost use Rattle.std.specs.Prelude.{◌≡◌, ◌+◌, ◌<◌, ◌≤◌, ◌↔◌, length};
ghost use Rattle.vm_types.specs.declared.limits.TheConstants.{MOST_EXTENT};
ghost use Rattle.pager_policy.specs.Swap.{come_gives};
ghost use Rattle.policy_tables.specs.ComeCases.{come_cases};
ghost use Rattle.policy_tables.specs.Rows.{IsByCases};
ghost use Rattle.vm_types.specs.Adjust.{lesser};
ghost use Rattle.vm_types.specs.declared.names.ProcStatus.TheVariants as status;
ghost use Rattle.call_begins.specs.MayBegin.{MayBegin, empty};
ghost use Rattle.vm_state.specs.History.{owed, pager};
ghost use Rattle.vm_swapper.specs.Cases.{at_back, at_come, at_reads, at_resident};
ghost use Rattle.vm_swapper.specs.Swaps.{MaySwap, Swaps};
ghost use Rattle.vm_swapper.specs.declared.swap.Swap.{Swap};

use crate::looks::{Look, first};
use crate::runs::{Run, Wanted, gathered};
use crate::slots::address_of;
use crate::swap::{Swap, SwapWhy};
use crate::transfers::read_all;
use disk_trait::Block;
use vm_state::{Carrier, State};
use vm_types::{FrameState, Proc, ProcStatus, Seat};

/// Makes the next entries for a process that comes back to memory, by any seat without an open transfer:
/// by the first case that applies. There may be room for too few entries; else a page that is on the free
/// list comes back; then a run of pages that are out is read from the swap blocks; and a process none of
/// whose pages lies in a swap block is resident. The cases are the rows of a table, `come_cases`. Doesn't
/// allocate.
pub fn come_some<B: Block>(
    state: &mut State<B>,
    seat: Seat,
    p: Proc,
    carrier: &mut Carrier<B>,
) -> Swap
    requires idle { MayBegin state.old seat }
    requires process { p.0 < length state.old.config.procs }
    requires coming { (pager state.old).status p.0 ≡ status.Coming }
    requires carrier { carrier.old ≡ empty seat }
    ensures room { (result ≡ Swap.Room) ↔ (state.old.spare < owed state.old.past + 64) }
    ensures same { result ≡ Swap.Room → (state.new ≡ state.old) × (carrier.new ≡ carrier.old) }
    ensures gives { owed state.old.past + 64 ≤ state.old.spare
        → Swaps B.seen B.tells state.old state.new seat (come_gives state.old.config state.old.past (pager state.old) p.0) result
        carrier.old carrier.new }
    ensures by_table { owed state.old.past + 64 ≤ state.old.spare
        → IsByCases (come_cases state.old.config state.old.past (pager state.old) p.0) (λ g. Swaps B.seen B.tells state.old state.new seat g result
        carrier.old carrier.new) }
{
    state.run_law();
    if state.spare() - state.owed() < 64 {
        return Swap::Room;
    }
    come(state, seat, p, carrier)
}

/// A page that is on the free list comes back first, then those that are out are read. A process with no
/// such page is resident.
fn come<B: Block>(state: &mut State<B>, seat: Seat, p: Proc, carrier: &mut Carrier<B>) -> Swap
    requires { MaySwap state.old seat p (at_come state.old p.0) carrier.old }
    ensures { Swaps B.seen B.tells state.old state.new seat (at_come state.old p.0) result carrier.old carrier.new }
{
    if let Some(n) = first(state, p, Look::OnFree) {
        let run = Run { seat, p, slot: n };
        back_at(state, run, carrier)
    } else if let Some(n) = first(state, p, Look::Out) {
        let run = Run { seat, p, slot: n };
        read_from(state, run, carrier)
    } else {
        turn_resident(state, seat, p, carrier)
    }
}

/// The page that lies in the swap block of a run's first slot comes back from the free list.
fn back_at<B: Block>(state: &mut State<B>, run: Run, carrier: &mut Carrier<B>) -> Swap
    requires { MaySwap state.old run.seat run.p (at_back state.old (run.p).0 run.slot) carrier.old }
    ensures { Swaps B.seen B.tells state.old state.new run.seat (at_back state.old (run.p).0 run.slot) result carrier.old carrier.new }
{
    state.run_law();
    if let Some(page) = state.swapped(run.p, run.slot) {
        if let Some(f) = state.backing(page).frame {
            state.back(run.seat, run.p, address_of(page), f, FrameState::Free);
        }
    }
    Swap::More
}

/// The lesser of two numbers.
fn lesser(m: u32, n: u32) -> u32
    ensures { result ≡ lesser m n }
{
    if m <= n { m } else { n }
}

/// The pages that lie in the swap blocks of a run are read, as far as frames are free.
fn read_from<B: Block>(state: &mut State<B>, run: Run, carrier: &mut Carrier<B>) -> Swap
    requires slot { run.slot < MOST_EXTENT }
    requires may { MaySwap state.old run.seat run.p (at_reads state.old (run.p).0 run.slot) carrier.old }
    ensures { Swaps B.seen B.tells state.old state.new run.seat (at_reads state.old (run.p).0 run.slot) result carrier.old carrier.new }
{
    state.run_law();
    let free = state.free_len();
    if free == 0 {
        return Swap::Again(SwapWhy::NoFrame);
    }
    let most = lesser(state.config().params.pfc, free);
    let addresses = gathered(state, run, most, Wanted::Address);
    read_all(state, run, addresses.as_slice(), carrier);
    Swap::Carry
}

/// A process none of whose pages lies in a swap block is resident, once no page is being read back.
fn turn_resident<B: Block>(
    state: &mut State<B>,
    seat: Seat,
    p: Proc,
    carrier: &mut Carrier<B>,
) -> Swap
    requires { MaySwap state.old seat p (at_resident state.old p.0) carrier.old }
    ensures { Swaps B.seen B.tells state.old state.new seat (at_resident state.old p.0) result carrier.old carrier.new }
{
    if state.has_come(p) {
        Swap::Again(SwapWhy::InFlight)
    } else {
        state.turn(seat, p, ProcStatus::Resident);
        Swap::Settled
    }
}
