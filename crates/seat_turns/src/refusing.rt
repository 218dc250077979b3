ghost use Rattle.std.specs.Prelude.{◌≡◌, ◌<◌, ◌⊎◌, IsTrue, length, true};
ghost use Rattle.vm_types.specs.declared.names.ProcStatus.TheVariants as status;
ghost use Rattle.pager_model.specs.Served.{may_fail};
ghost use Rattle.vm_state.specs.History.{pager};
ghost use Rattle.seat_laws.specs.Unmet.{IsUnmet};

use disk_trait::Block;
use seat_laws::is_unmet;
use vm_state::State;
use vm_types::{Proc, Ref, Service};

/// Whether a reference is refused: what was out for it was lost, and it is still to be met.
pub(crate) fn is_denied<B: Block>(state: &State<B>, p: Proc, r: Ref, lost: bool) -> bool
    requires process { p.0 < length state.now.config.procs }
    ensures lost { result ≡ true → lost ≡ true }
    ensures unmet { IsTrue result → IsUnmet state.now.config (pager state.now) p.0 r }
{
    if lost { is_unmet(state, p, r) } else { false }
}

/// Whether a service is one that may meet a failed transfer of a resident process.
fn may_fail(s: Service) -> bool
    ensures { result ≡ may_fail s }
{
    matches!(s, Service::Delete { .. } | Service::Purge { .. })
}

/// Whether a service is refused for a lost transfer: all that was out for it was lost, and its process
/// isn't resident, or it is one that waits for transfers.
pub(crate) fn is_failed<B: Block>(state: &State<B>, p: Proc, s: Service, lost: bool) -> bool
    requires process { p.0 < length state.now.config.procs }
    ensures lost { result ≡ true → lost ≡ true }
    ensures waits { result ≡ true → ((pager state.now).status p.0 ≡ status.Resident → ⊥) ⊎ (may_fail s ≡ true) }
{
    if !lost {
        return false;
    }
    if !state.status(p).is_resident() {
        return true;
    }
    may_fail(s)
}
