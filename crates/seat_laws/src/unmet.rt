ghost use Rattle.std.specs.Prelude.{◌<◌, IsTrue, length};
ghost use Rattle.vm_state.specs.History.{pager};
ghost use Rattle.seat_laws.specs.Unmet.{IsUnmet};

use disk_trait::Block;
use vm_state::State;
use vm_types::{PAGE_BYTES, Proc, Ref};

/// Whether a reference of a process of the configuration is still to be met: its process isn't resident,
/// or its page is mapped, and has no valid entry.
pub fn is_unmet<B: Block>(state: &State<B>, p: Proc, r: Ref) -> bool
    requires { p.0 < length state.now.config.procs }
    ensures { IsTrue result → IsUnmet state.now.config (pager state.now) p.0 r }
{
    if !state.status(p).is_resident() {
        return true;
    }
    match state.found(p, r.addr.0 / PAGE_BYTES) {
        Some(found) => !found.valid,
        None => false,
    }
}
