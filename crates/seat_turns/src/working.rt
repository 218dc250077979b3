ghost use Rattle.std.specs.Prelude.{◌≡◌, ◌<◌, length};
ghost use Rattle.vm_types.specs.declared.names.ProcStatus.TheVariants as status;
ghost use Rattle.pager_policy.specs.WriteCluster.{reason_need};
ghost use Rattle.vm_state.specs.History.{pager};
ghost use Rattle.seat_steps.specs.Steps.{IsToLeave, IsToWrite};
ghost use Rattle.seat_turns.specs.Stepping.{IsStepWhere};
ghost use Rattle.seat_turns.specs.Worked.{HasTried, MayStart};

use disk_trait::Block;
use modified_writer::{Begin, Reason, begin};
use vm_state::{Carrier, State};
use vm_swapper::{Swap, SwapWhy, leave_some};
use vm_types::Proc;

/// Begins to write a cluster because room is needed. Returns whether there was something to write.
pub(crate) fn write_for_room<B: Block>(state: &mut State<B>, carrier: &mut Carrier<B>) -> bool
    requires start { MayStart state.old carrier.old }
    ensures tried { HasTried B.seen B.tells state.old state.new carrier.old carrier.new result }
    ensures step { IsStepWhere state.old state.new carrier.old.seat (λ s seat request. IsToWrite s.config s.past seat request reason_need) }
{
    match begin(state, carrier.seat(), Reason::Need, carrier) {
        Begin::Carry => true,
        Begin::Nothing => false,
        Begin::Room => unreachable!(),
    }
}

/// A process that is leaving goes on to leave. Returns whether it could, or a page was written for room.
pub(crate) fn leave<B: Block>(state: &mut State<B>, q: Proc, carrier: &mut Carrier<B>) -> bool
    requires start { MayStart state.old carrier.old }
    requires process { q.0 < length state.old.config.procs }
    requires leaving { (pager state.old).status q.0 ≡ status.Leaving }
    ensures tried { HasTried B.seen B.tells state.old state.new carrier.old carrier.new result }
    ensures step { IsStepWhere state.old state.new carrier.old.seat (λ s seat request. IsToLeave s.config s.past seat request q.0) }
{
    match leave_some(state, carrier.seat(), q, carrier) {
        Swap::Carry => true,
        Swap::More => true,
        Swap::Settled => true,
        Swap::Again(SwapWhy::ModifiedFull) => write_for_room(state, carrier),
        Swap::Again(SwapWhy::InFlight) => false,
        Swap::Again(SwapWhy::NoFrame) => false,
        Swap::Room => unreachable!(),
    }
}
