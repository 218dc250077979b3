//! Why a page of a process isn't in a frame.

ghost use Rattle.std.specs.Prelude.{◌≡◌, ◌↔◌, ℕ, Some, IfSome, IsNone};
ghost use Rattle.vm_types.specs.declared.names.FrameState.{FrameState as AnyState};
ghost use Rattle.vm_types.specs.declared.names.Page.{Page as AnyPage};
ghost use Rattle.pager_model.specs.Lookups.{page_by};
ghost use Rattle.log_reasons.specs.RowReasons.{NamedFails, StayFails};
ghost use Rattle.shadow_pager.specs.Shown.{shown};

use log_reasons::Reason;
use shadow_pager::ShadowPager;
use vm_types::{Config, Pfn, Proc};

/// Why a page of a process isn't mapped, or isn't in the frame: a reason why it doesn't come back, and why
/// no collision with its read is named.
pub(crate) fn held_fails(
    config: &Config,
    pager: &ShadowPager,
    p: Proc,
    v: u32,
    f: Pfn,
) -> Option<Reason>
    ensures legal { IsNone result ↔ ((page : AnyPage) × (page_by config.now (shown pager.now).pager.map p.0 v ≡ Some page) × ((shown pager.now).pager.page f.0 ≡ Some page)) }
    ensures stays { (from : AnyState) → IfSome result (StayFails config.now (shown pager.now).pager p.0 v f.0 from) }
    ensures named { (k : ℕ) → IfSome result (NamedFails config.now (shown pager.now).pager p.0 v f.0 k) }
{
    let mapped = pager.page_of(config, p, v);
    if mapped.is_none() {
        return Some(Reason::NotMapped);
    }
    let held = pager.page(f);
    if held != mapped {
        return Some(Reason::HoldsOtherPage(held));
    }
    None
}
