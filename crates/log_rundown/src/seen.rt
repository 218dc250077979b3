ghost use Rattle.std.specs.Prelude.{◌≡◌, not};
ghost use Rattle.std.specs.Option.{option_map};
ghost use Rattle.pager_policy.specs.Given.{seen_at};
ghost use Rattle.pager_model.specs.Maps.{is_private};
ghost use Rattle.pager_policy.specs.Rundown.{is_shared_at};
ghost use Rattle.shadow_pager.specs.Shown.{shown};
ghost use Rattle.log_rundown.specs.Places.{seen_as};

use shadow_pager::ShadowPager;
use vm_types::{Page, Pfn, Proc};

/// What stands in a slot: the page number, by its valid entry the frame and the page, and whether that
/// is pinned.
#[derive(Clone, Copy, Debug)]
pub(crate) struct Seen {
    pub(crate) vpn: u32,
    pub(crate) frame: Pfn,
    pub(crate) page: Page,
    pub(crate) pinned: bool,
}

/// What stands in a slot of a process.
pub(crate) fn see(pager: &ShadowPager, p: Proc, n: u32) -> Option<Seen>
    ensures { option_map seen_as result ≡ seen_at (shown pager.now).pager p.0 n }
{
    let held = pager.held_at(p, n)?;
    let vpn = held.vpn();
    let frame = pager.entry(p, vpn)?.frame();
    let page = pager.page(frame)?;
    Some(Seen {
        vpn,
        frame,
        page,
        pinned: held.is_pinned(),
    })
}

/// Whether the page is a shared one.
pub(crate) fn is_shared(page: Page) -> bool
    ensures { result ≡ not (is_private page) }
{
    matches!(page, Page::Shared(..))
}

/// Whether a slot of a process has a shared page.
pub(crate) fn has_shared(pager: &ShadowPager, p: Proc, n: u32) -> bool
    ensures { result ≡ is_shared_at (shown pager.now).pager p.0 n }
{
    match see(pager, p, n) {
        Some(seen) => is_shared(seen.page),
        None => false,
    }
}
