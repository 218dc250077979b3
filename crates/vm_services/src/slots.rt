ghost use Rattle.std.specs.Prelude.{◌≡◌, ◌<◌, length};
ghost use Rattle.vm_types.specs.WellFormed.{IsRange};
ghost use Rattle.pager_policy.specs.Serve.{loose_in};
ghost use Rattle.vm_state.specs.History.{pager};
ghost use Rattle.vm_services.specs.Lowest.{lower, purged_in};

use disk_trait::Block;
use state_pages::Slot;
use vm_state::State;
use vm_types::{Addr, PAGE_BYTES, Proc};

/// The lower of two page numbers, if both are there, and else the one that is.
fn lower(first: Option<u32>, second: Option<u32>) -> Option<u32>
    ensures { result ≡ lower first second }
{
    match (first, second) {
        (Some(x), Some(y)) => Some(x.min(y)),
        (Some(x), None) => Some(x),
        (None, other) => other,
    }
}

/// The number of the page in a slot, if it is one of the range and neither locked nor pinned.
fn purged_in(slot: Option<Slot>, at: Addr, pages: u32) -> Option<u32>
    requires { IsRange at.0 pages }
    ensures { result ≡ purged_in at.0 pages slot }
{
    let slot = slot?;
    let first = at.0 / PAGE_BYTES;
    if !slot.locked && !slot.pinned && first <= slot.vpn && slot.vpn < first + pages {
        Some(slot.vpn)
    } else {
        None
    }
}

/// The lowest page of a range of a process that is valid and neither locked nor pinned; none if none
/// is. Looks at each slot of its working set once.
pub fn loose_in<B: Block>(state: &State<B>, p: Proc, at: Addr, pages: u32) -> Option<u32>
    requires process { p.0 < length state.now.config.procs }
    requires range { IsRange at.0 pages }
    ensures { result ≡ loose_in (pager state.now) p.0 at.0 pages }
{
    state.run_law();
    let slots = state.config().procs.items()[p.0 as usize].extent;
    let mut lowest = None;
    for n in 0..slots {
        lowest = lower(lowest, purged_in(state.slot(p, n), at, pages));
    }
    lowest
}
