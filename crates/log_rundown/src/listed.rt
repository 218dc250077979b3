ghost use Rattle.std.specs.Prelude.{◌≡◌};
ghost use Rattle.pager_policy.specs.Rundown.{holds_shared, is_shared_listed};
ghost use Rattle.shadow_pager.specs.Shown.{shown};

use crate::seen::is_shared;
use shadow_pager::ShadowPager;
use vm_types::Pfn;

/// Whether a frame holds a shared page.
fn holds_shared(pager: &ShadowPager, f: Pfn) -> bool
    ensures { result ≡ holds_shared ((shown pager.now).pager.page f.0) }
{
    match pager.page(f) {
        Some(page) => is_shared(page),
        None => false,
    }
}

/// Whether a frame on the modified list holds a shared page.
pub(crate) fn is_shared_listed(pager: &ShadowPager) -> bool
    ensures { result ≡ is_shared_listed (shown pager.now).pager }
{
    pager
        .modified_list()
        .iter()
        .any(|f| holds_shared(pager, Pfn(*f)))
}
