//! The pages of a range, one by one.

ghost use Rattle.std.specs.Prelude.{◌≡◌, ◌↔◌, ◌+◌, ◌≤◌, ℕ, true, false, None, Some, IfSome, IsNone, IsTrue};
ghost use Rattle.vm_types.specs.declared.limits.TheConstants.{MOST_FRAMES};
ghost use Rattle.vm_types.specs.WellFormed.{IsRange};
ghost use Rattle.vm_types.specs.declared.names.Page.{Page as AnyPage};
ghost use Rattle.pager_model.specs.FlatService.{in_range};
ghost use Rattle.pager_model.specs.Flights.{open_flights};
ghost use Rattle.pager_model.specs.Lookups.{entries_at, page_by};
ghost use Rattle.pager_model.specs.Maps.{proc};
ghost use Rattle.pager_model.specs.Served.{AreMapped, IsInUse, IsUnmapped};
ghost use Rattle.pager_model.specs.Transfers.{reads_on, writes_on};
ghost use Rattle.log_reasons.specs.ServedReasons.{InUseFails, MappedFails, SomeUnmappedFails, UnmappedFails};
ghost use Rattle.shadow_pager.specs.Shown.{shown};

use log_reasons::Reason;
use shadow_history::ShadowHistory;
use shadow_pager::ShadowPager;
use vm_types::{Addr, Config, PAGE_BYTES, Page, Pfn, Proc};

/// Pages of a process, from an address on.
#[derive(Clone, Copy)]
pub(crate) struct Range {
    pub(crate) process: Proc,
    pub(crate) at: Addr,
    pub(crate) pages: u32,
}

/// Whether a page of a process is mapped.
fn is_mapped(config: &Config, pager: &ShadowPager, p: Proc, v: u32) -> bool
    ensures yes { result ≡ true → (g : AnyPage) × (page_by config.now (shown pager.now).pager.map p.0 v ≡ Some g) }
    ensures no { result ≡ false → page_by config.now (shown pager.now).pager.map p.0 v ≡ None }
{
    match pager.page_of(config, p, v) {
        None => false,
        Some(_) => true,
    }
}

/// Whether a page of a process isn't mapped.
fn is_unmapped_at(config: &Config, pager: &ShadowPager, p: Proc, v: u32) -> bool
    ensures yes { result ≡ true → page_by config.now (shown pager.now).pager.map p.0 v ≡ None }
    ensures no { result ≡ false → (g : AnyPage) × (page_by config.now (shown pager.now).pager.map p.0 v ≡ Some g) }
{
    match pager.page_of(config, p, v) {
        None => true,
        Some(_) => false,
    }
}

/// The first page of a range that isn't mapped.
fn first_unmapped(config: &Config, pager: &ShadowPager, range: Range) -> Option<u32>
    requires { IsRange (range.at).0 range.pages }
    ensures found { IfSome result (λ v. (in_range (range.at).0 range.pages v ≡ true) × (page_by config.now (shown pager.now).pager.map (range.process).0 v ≡ None)) }
    ensures none { IsNone result → AreMapped config.now (shown pager.now).pager (range.process).0 (range.at).0 range.pages }
{
    let first = range.at.0 / PAGE_BYTES;
    for n in 0..range.pages {
        if is_unmapped_at(config, pager, range.process, first + n) {
            return Some(first + n);
        }
    }
    None
}

/// The first page of a range that is mapped.
fn first_mapped(config: &Config, pager: &ShadowPager, range: Range) -> Option<u32>
    requires { IsRange (range.at).0 range.pages }
    ensures found { IfSome result (λ v. (in_range (range.at).0 range.pages v ≡ true) × ((g : AnyPage) × (page_by config.now (shown pager.now).pager.map (range.process).0 v ≡ Some g))) }
    ensures none { IsNone result → IsInUse config.now (shown pager.now).pager (range.process).0 (range.at).0 range.pages → ⊥ }
{
    let first = range.at.0 / PAGE_BYTES;
    for n in 0..range.pages {
        if is_mapped(config, pager, range.process, first + n) {
            return Some(first + n);
        }
    }
    None
}

/// Why not each page of a range is mapped.
pub(crate) fn mapped_fails(config: &Config, pager: &ShadowPager, range: Range) -> Option<Reason>
    requires { IsRange (range.at).0 range.pages }
    ensures legal { IsNone result ↔ AreMapped config.now (shown pager.now).pager (range.process).0 (range.at).0 range.pages }
    ensures said { IfSome result (MappedFails config.now (shown pager.now).pager (range.process).0 (range.at).0 range.pages) }
{
    match first_unmapped(config, pager, range) {
        Some(v) => Some(Reason::RangePageUnmapped(v)),
        None => None,
    }
}

/// Why no page of a range isn't mapped.
pub(crate) fn some_unmapped_fails(
    config: &Config,
    pager: &ShadowPager,
    range: Range,
) -> Option<Reason>
    requires { IsRange (range.at).0 range.pages }
    ensures legal { IsNone result ↔ IsUnmapped config.now (shown pager.now).pager (range.process).0 (range.at).0 range.pages }
    ensures said { IfSome result (SomeUnmappedFails config.now (shown pager.now).pager (range.process).0 (range.at).0 range.pages) }
{
    match first_unmapped(config, pager, range) {
        Some(_) => None,
        None => Some(Reason::RangeIsMapped),
    }
}

/// Why some page of a range is mapped.
pub(crate) fn unmapped_fails(config: &Config, pager: &ShadowPager, range: Range) -> Option<Reason>
    requires { IsRange (range.at).0 range.pages }
    ensures legal { IsNone result ↔ ((v : ℕ) → in_range (range.at).0 range.pages v ≡ true → (shown pager.now).pager.map (range.process).0 v ≡ None) }
    ensures said { IfSome result (UnmappedFails config.now (shown pager.now).pager (range.process).0 (range.at).0 range.pages) }
{
    match first_mapped(config, pager, range) {
        Some(v) => Some(Reason::RangePageMapped(v)),
        None => None,
    }
}

/// Why no page of a range is mapped.
pub(crate) fn in_use_fails(config: &Config, pager: &ShadowPager, range: Range) -> Option<Reason>
    requires { IsRange (range.at).0 range.pages }
    ensures legal { IsNone result ↔ IsInUse config.now (shown pager.now).pager (range.process).0 (range.at).0 range.pages }
    ensures said { IfSome result (InUseFails config.now (shown pager.now).pager (range.process).0 (range.at).0 range.pages) }
{
    match first_mapped(config, pager, range) {
        Some(_) => None,
        None => Some(Reason::RangeNotInUse),
    }
}

/// Whether a process has a valid entry for a page.
fn is_valid_at(pager: &ShadowPager, p: Proc, v: u32) -> bool
    ensures yes { result ≡ true → entries_at (shown pager.now).pager.valid p.0 v ≡ 0 → ⊥ }
    ensures no { result ≡ false → entries_at (shown pager.now).pager.valid p.0 v ≡ 0 }
{
    pager.entries(p, v) != 0
}

/// Whether no page of a range is valid.
pub(crate) fn none_is_valid(pager: &ShadowPager, range: Range) -> bool
    requires { IsRange (range.at).0 range.pages }
    ensures { IsTrue result ↔ ((v : ℕ) → in_range (range.at).0 range.pages v ≡ true → entries_at (shown pager.now).pager.valid (range.process).0 v ≡ 0) }
{
    let first = range.at.0 / PAGE_BYTES;
    for n in 0..range.pages {
        if is_valid_at(pager, range.process, first + n) {
            return false;
        }
    }
    true
}

/// Whether the page number is one of the range's.
fn is_in_range(range: Range, v: u32) -> bool
    ensures { result ≡ in_range (range.at).0 range.pages v }
{
    let first = range.at.0 / PAGE_BYTES;
    first <= v && v - first < range.pages
}

/// Whether a frame holds a private page of a process's range, and has a flight.
fn flies(past: &ShadowHistory<'_>, pager: &ShadowPager, range: Range, f: Pfn) -> bool
    ensures { IsTrue result ↔ ((v : ℕ) × (in_range (range.at).0 range.pages v ≡ true) × ((shown pager.now).pager.page f.0 ≡ Some (AnyPage.Private (proc (range.process).0) v))
        × (reads_on f.0 (open_flights past.now.past) + writes_on f.0 (open_flights past.now.past) ≡ 0 → ⊥)) }
{
    match pager.page(f) {
        Some(Page::Private(q, v)) => {
            q.0 == range.process.0 && is_in_range(range, v) && past.flights_on(f) != 0
        }
        Some(Page::Shared(_, _)) | None => false,
    }
}

/// Whether no frame with a private page of a process's range has a flight.
pub(crate) fn none_flies(past: &ShadowHistory<'_>, pager: &ShadowPager, range: Range) -> bool
    requires { (shown pager.now).frames ≤ MOST_FRAMES }
    ensures { IsTrue result ↔ ((v f : ℕ) → in_range (range.at).0 range.pages v ≡ true → (shown pager.now).pager.page f ≡ Some (AnyPage.Private (proc (range.process).0) v)
        → reads_on f (open_flights past.now.past) + writes_on f (open_flights past.now.past) ≡ 0) }
{
    for f in 0..pager.frames() {
        if flies(past, pager, range, Pfn(f as u32)) {
            return false;
        }
    }
    true
}
