ghost use Rattle.std.specs.Prelude.{◌≡◌};
ghost use Rattle.pager_model.specs.Evict.{evicted_to};
ghost use Rattle.pager_policy.specs.Given.{goes_to, is_stopped};
ghost use Rattle.vm_state.specs.History.{pager};

use disk_trait::Block;
use pfn_database::Row;
use vm_state::State;
use vm_types::{FrameState, Pfn};

/// Where a frame goes that loses one of its entries: it stays active while others share it, is release
/// pending while a transfer is open on it, and else goes to the modified list or to the free list.
pub fn goes_to(row: Row) -> FrameState
    ensures { result ≡ evicted_to row.shares row.flights row.modify }
{
    if row.shares > 1 {
        FrameState::Active
    } else if row.flights > 0 {
        FrameState::ReleasePending
    } else if row.modify {
        FrameState::Modified
    } else {
        FrameState::Free
    }
}

/// Whether a frame that goes there has to wait: the modified list is at its wait limit.
pub fn is_stopped<B: Block>(state: &State<B>, f: Pfn, to: FrameState) -> bool
    requires { to ≡ goes_to state.now.past (pager state.now) f.0 }
    ensures { result ≡ is_stopped state.now.config state.now.past (pager state.now) f.0 }
{
    matches!(to, FrameState::Modified) && state.config().params.waitlimit <= state.modified_len()
}
