ghost use Rattle.std.specs.Prelude.{◌≡◌, ◌<◌, IfSome, length, not};
ghost use Rattle.std.specs.Option.{option_map};
ghost use Rattle.pager_policy.specs.Given.{seen_at};
ghost use Rattle.pager_model.specs.Maps.{is_private};
ghost use Rattle.pager_policy.specs.Swap.{is_still};
ghost use Rattle.vm_state.specs.History.{pager};
ghost use Rattle.vm_swapper.specs.SeenSlots.{IsPlaced, seen_as};

use disk_trait::Block;
use vm_state::State;
use vm_types::{Page, Pfn, Proc};

/// A page in a slot of a working set: its number, the frame of its valid entry, the page that the frame
/// holds, and whether it is pinned in memory.
#[derive(Clone, Copy, Debug, PartialEq, Eq)]
pub struct Seen {
    pub vpn: u32,
    pub frame: Pfn,
    pub page: Page,
    pub pinned: bool,
}

/// What is seen in a slot (any number) of a process of the configuration; none if the slot is empty, or
/// isn't there. Doesn't allocate.
pub fn see<B: Block>(state: &State<B>, p: Proc, n: u32) -> Option<Seen>
    requires { p.0 < length state.now.config.procs }
    ensures seen { option_map seen_as result ≡ seen_at (pager state.now) p.0 n }
    ensures placed { IfSome result (λ x. IsPlaced state.now.config x) }
{
    state.run_law();
    let slot = state.slot(p, n)?;
    let row = state.frame(slot.frame);
    match row.page {
        Some(page) => Some(Seen {
            vpn: slot.vpn,
            frame: slot.frame,
            page,
            pinned: slot.pinned,
        }),
        None => None,
    }
}

/// Whether it is a private page.
pub fn is_private(page: Page) -> bool
    ensures { result ≡ is_private page }
{
    matches!(page, Page::Private(..))
}

/// Whether a frame of the configuration has no open transfer.
pub fn is_still<B: Block>(state: &State<B>, f: Pfn) -> bool
    requires { f.0 < state.now.config.frames }
    ensures { result ≡ is_still state.now.past f.0 }
{
    state.frame(f).flights == 0
}
