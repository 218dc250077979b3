ghost use Rattle.std.specs.Prelude.{◌≡◌, ◌+◌, ◌<◌, ◌≤◌, ◌↔◌};
ghost use Rattle.vm_types.specs.WellFormed.{IsWellFormedReference};
ghost use Rattle.vm_types.specs.declared.reply.Why.{Why};
ghost use Rattle.vm_journal.specs.declared.entry.What.{What};
ghost use Rattle.pager_policy.specs.Advance.{advance_gives};
ghost use Rattle.vm_state.specs.History.{MayAdd, added, entry_by, owed, pager};
ghost use Rattle.call_begins.specs.MayBegin.{empty};
ghost use Rattle.fault_core.specs.Cases.{at_first};
ghost use Rattle.fault_core.specs.Gives.{Gives, IsGivenByCases, MayRefer};
ghost use Rattle.call_begins.specs.ReadySeat.{IsIdleSeat};
ghost use Rattle.fault_core.specs.declared.next.Next.{Next};

use crate::answers::answer;
use crate::next::{AgainWhy, Next};
use disk_trait::Block;
use vm_state::{Carrier, State};
use vm_types::{Proc, Ref, Seat, Why};

/// Makes the next entries for a reference of a process by its own seat: by the first case that applies.
/// There may be room for too few entries; else a process that isn't resident waits, a pending
/// adjustment is made, a reference is refused or answered, or its page is waited for, replaced for,
/// taken back, made of zeros, or read with its cluster. The cases are the rows of a table, `advance_cases`.
/// Doesn't allocate.
#[inline(always)]
pub fn advance<B: Block>(
    state: &mut State<B>,
    seat: Seat,
    p: Proc,
    r: Ref,
    carrier: &mut Carrier<B>,
) -> Next
    requires own { seat.0 ≡ p.0 }
    requires idle { IsIdleSeat state.old seat }
    requires formed { IsWellFormedReference r }
    requires carrier { carrier.old ≡ empty seat }
    ensures room { (result ≡ Next.Room) ↔ (state.old.spare < owed state.old.past + 64) }
    ensures same { result ≡ Next.Room → (state.new ≡ state.old) × (carrier.new ≡ carrier.old) }
    ensures gives { owed state.old.past + 64 ≤ state.old.spare
        → Gives B.seen B.tells state.old state.new seat r (advance_gives state.old.config state.old.past (pager state.old) p.0 r) result
        carrier.old carrier.new }
    ensures by_table { owed state.old.past + 64 ≤ state.old.spare → IsGivenByCases state.old state.new seat r result }
{
    state.run_law();
    if state.spare() - state.owed() < 64 {
        return Next::Room;
    }
    if state.status(p).is_resident() {
        resident(state, seat, r, carrier)
    } else {
        Next::Again(AgainWhy::NotResident)
    }
}

/// The process is resident.
fn resident<B: Block>(state: &mut State<B>, seat: Seat, r: Ref, carrier: &mut Carrier<B>) -> Next
    requires { MayRefer state.old seat r (at_first state.old seat r) carrier.old }
    ensures { Gives B.seen B.tells state.old state.new seat r (at_first state.old seat r) result carrier.old carrier.new }
{
    match state.pending(Proc(seat.0)) {
        Some((n, faults)) => {
            state.limit(seat, n, faults);
            Next::More
        }
        None => answer(state, seat, r, carrier),
    }
}

/// Refuses a reference whose page couldn't be read. Doesn't allocate.
pub fn refuse<B: Block>(state: &mut State<B>, seat: Seat, p: Proc, r: Ref)
    requires own { seat.0 ≡ p.0 }
    requires may { MayAdd state.old (entry_by seat (What.Denied r Why.DiskFault)) }
    ensures { state.new ≡ added state.old (entry_by seat (What.Denied r Why.DiskFault)) }
{
    state.denied(seat, r, Why::DiskFault)
}
