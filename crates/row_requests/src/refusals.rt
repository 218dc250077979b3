//! Why the flat machine that has the pager's maps and touched pages refuses a reference.

ghost use Rattle.std.specs.Prelude.{◌≡◌, ◌<◌, ℕ, List, None, Some, not, if◌then◌else◌};
ghost use Rattle.vm_types.specs.Access.{is_allowed};
ghost use Rattle.vm_types.specs.declared.names.Page.{Page as AnyPage};
ghost use Rattle.pager_model.specs.Flat.{flat_refusal, is_change, is_page_file_full, refusal_at};
ghost use Rattle.pager_model.specs.Maps.{page_behind, page_number};
ghost use Rattle.pager_model.specs.OfConfig.{MapsRight};
ghost use Rattle.shadow_pager.specs.Shown.{shown};

use shadow_pager::ShadowPager;
use shadow_tables::{Behind, is_paged};
use vm_types::{Config, Op, PAGE_BYTES, Page, Proc, Ref, Why, allowed};

/// Whether an operation changes a page.
fn is_change(op: Op) -> bool
    ensures { result ≡ is_change op }
{
    match op {
        Op::Read(_) => false,
        Op::Write(_, _) | Op::Add(_) => true,
    }
}

/// Whether what a page is mapped to allows the reference.
pub(crate) fn is_allowed(behind: Behind, r: Ref) -> bool
    requires { behind.prot < 16 }
    ensures { result ≡ is_allowed behind.prot r.mode (is_change r.op) }
{
    allowed(behind.prot(), r.mode, is_change(r.op))
}

/// Whether the page file has no block for the page's first touch.
fn is_page_file_full(config: &Config, pager: &ShadowPager, page: Page) -> bool
    ensures { (stored : AnyPage → List ℕ) → result ≡ is_page_file_full config.now (record { map = (shown pager.now).pager.map; touched = (shown pager.now).pager.touched; stored = stored }) page }
{
    is_paged(config, page)
        && !pager.is_touched(page)
        && pager.touched_pages() == config.pagefile as usize
}

/// Whether the page file has no block for the first touch of a mapped page.
fn is_full_at(config: &Config, pager: &ShadowPager, p: Proc, v: u32, behind: Behind) -> bool
    requires { (shown pager.now).pager.map p.0 v ≡ Some behind }
    ensures { (stored : AnyPage → List ℕ) → result ≡ is_page_file_full config.now (record { map = (shown pager.now).pager.map; touched = (shown pager.now).pager.touched; stored = stored }) (page_behind config.now p.0 v behind.origin) }
{
    match pager.page_of(config, p, v) {
        Some(page) => is_page_file_full(config, pager, page),
        None => false,
    }
}

/// Why a reference to a mapped page is refused, by whether it is allowed, and whether the page file
/// is full.
fn refusal_by(is_allowed: bool, is_full: bool) -> Option<Why>
    ensures { result ≡ (if not is_allowed then Some Why.Protected else (if is_full then Some Why.PageFileFull else None)) }
{
    if !is_allowed {
        Some(Why::Protected)
    } else if is_full {
        Some(Why::PageFileFull)
    } else {
        None
    }
}

/// Why a reference to a page that is mapped to this is refused, if it is.
fn refusal_at(config: &Config, pager: &ShadowPager, p: Proc, r: Ref, behind: Behind) -> Option<Why>
    requires code { behind.prot < 16 }
    requires mapped { (shown pager.now).pager.map p.0 (page_number (r.addr).0) ≡ Some behind }
    ensures { (stored : AnyPage → List ℕ) → result ≡ refusal_at config.now (record { map = (shown pager.now).pager.map; touched = (shown pager.now).pager.touched; stored = stored }) p.0 r (Some behind) }
{
    refusal_by(
        is_allowed(behind, r),
        is_full_at(config, pager, p, r.addr.0 / PAGE_BYTES, behind),
    )
}

/// Why a reference of a process (any number) is refused, if it is.
pub fn refusal(config: &Config, pager: &ShadowPager, p: Proc, r: Ref) -> Option<Why>
    requires { MapsRight config.now (shown pager.now).pager.map }
    ensures { (stored : AnyPage → List ℕ) → result ≡ flat_refusal config.now (record { map = (shown pager.now).pager.map; touched = (shown pager.now).pager.touched; stored = stored }) p.0 r }
{
    match pager.mapping(p, r.addr.0 / PAGE_BYTES) {
        None => Some(Why::Unmapped),
        Some(behind) => refusal_at(config, pager, p, r, behind),
    }
}
