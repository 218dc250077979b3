ghost use Rattle.std.specs.Prelude.{◌≡◌};
ghost use Rattle.pager_policy.specs.Given.{goes_to, is_stopped};
ghost use Rattle.shadow_pager.specs.Shown.{shown};

use shadow_history::ShadowHistory;
use shadow_pager::ShadowPager;
use vm_types::{FrameState, Pfn};

/// Where a frame goes that loses one of its entries: it stays active while others share it, is release
/// pending while a flight is open on it, and else goes to the modified list or to the free list.
pub(crate) fn goes_to(past: &ShadowHistory<'_>, pager: &ShadowPager, f: Pfn) -> FrameState
    ensures { result ≡ goes_to past.now.past (shown pager.now).pager f.0 }
{
    if pager.shares(f) > 1 {
        FrameState::Active
    } else if past.flights_on(f) > 0 {
        FrameState::ReleasePending
    } else if pager.is_modified(f) {
        FrameState::Modified
    } else {
        FrameState::Free
    }
}

/// Whether a frame that would go there has to wait: the modified list is at its wait limit.
pub(crate) fn is_stopped(
    past: &ShadowHistory<'_>,
    pager: &ShadowPager,
    f: Pfn,
    to: FrameState,
) -> bool
    requires { to ≡ goes_to past.now.past (shown pager.now).pager f.0 }
    ensures { result ≡ is_stopped past.now.config past.now.past (shown pager.now).pager f.0 }
{
    let limit = past.config().params.waitlimit as usize;
    matches!(to, FrameState::Modified) && limit <= pager.modified_frames()
}
