ghost use Rattle.std.specs.Prelude.{◌≡◌, ◌+◌, ◌<◌, ◌≤◌, ◌↔◌, ◌||◌, length, nat_eq};
ghost use Rattle.pager_policy.specs.WriteCluster.{begin_gives, is_enough};
ghost use Rattle.policy_tables.specs.BeginCases.{begin_cases};
ghost use Rattle.policy_tables.specs.Rows.{IsByCases};
ghost use Rattle.vm_state.specs.History.{owed, pager};
ghost use Rattle.call_begins.specs.MayBegin.{MayBegin, empty};
ghost use Rattle.modified_writer.specs.Begins.{Begins, reason_of};
ghost use Rattle.modified_writer.specs.declared.begun.Begin.{Begin};

use crate::begun::Begin;
use crate::cluster::write_cluster;
use crate::reason::Reason;
use disk_trait::Block;
use vm_state::{Carrier, State};
use vm_types::Seat;

/// Whether the modified list is short enough: at most LOLIMIT pages long, or, if room is needed, empty.
fn is_enough<B: Block>(state: &State<B>, reason: Reason) -> bool
    ensures { result ≡ (is_enough state.now.config (pager state.now) (reason_of reason) || nat_eq (length (pager state.now).modified) 0) }
{
    let listed = state.modified_len();
    match reason {
        Reason::High => listed <= state.config().params.lolimit,
        Reason::Need => listed == 0,
    }
}

/// Begins to write a cluster: one write for each page from the modified list's head on whose blocks
/// adjoin, at most WRTCLUSTER. A private page without an assigned block takes the lowest free block if
/// it is the first, and later the next block if that is free. Nothing is made if the list is short
/// enough, or if there is room for too few entries. The cases are the rows of a table, `begin_cases`.
/// Doesn't allocate.
#[inline(never)]
pub fn begin<B: Block>(
    state: &mut State<B>,
    seat: Seat,
    reason: Reason,
    carrier: &mut Carrier<B>,
) -> Begin
    requires idle { MayBegin state.old seat }
    requires carrier { carrier.old ≡ empty seat }
    ensures room { (result ≡ Begin.Room) ↔ (state.old.spare < owed state.old.past + 64) }
    ensures same { result ≡ Begin.Room → (state.new ≡ state.old) × (carrier.new ≡ carrier.old) }
    ensures gives { owed state.old.past + 64 ≤ state.old.spare
        → Begins B.seen B.tells state.old state.new seat (begin_gives state.old.config (pager state.old) (reason_of reason)) result
        carrier.old carrier.new }
    ensures by_table { owed state.old.past + 64 ≤ state.old.spare
        → IsByCases (begin_cases state.old.config (pager state.old) (reason_of reason)) (λ g. Begins B.seen B.tells state.old state.new seat g result
        carrier.old carrier.new) }
{
    state.run_law();
    if state.spare() - state.owed() < 64 {
        return Begin::Room;
    }
    if is_enough(state, reason) {
        Begin::Nothing
    } else {
        write_cluster(state, seat, carrier);
        Begin::Carry
    }
}
