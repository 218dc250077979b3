ghost use Rattle.std.specs.Prelude.{◌≡◌, ◌<◌, ◌≤◌, ◌^◌, ℕ, All, length, true, false};
ghost use Rattle.vm_types.specs.Configuration.{section_pages};
ghost use Rattle.vm_types.specs.declared.names.Page.{Page};
ghost use Rattle.pager_model.specs.Flat.{is_change};
ghost use Rattle.pager_model.specs.Maps.{page_behind};
ghost use Rattle.pager_model.specs.OfConfig.{IsMappable};
ghost use Rattle.state_parts.specs.ChargedTable.{kept_at};
ghost use Rattle.state_pages.specs.PagesShown.{HasWaiting, NoneShared, NoneWaits, found_shown, frame_at, frame_named, is_touched_row, is_valid, is_waiting, own_backing, paged_pages, shared_backing, shared_home};

use crate::found::{Backing, Found};
use crate::reading::{is_paged, page_over};
use pte_forms::{Place, Pte};
use state_parts::{ChargedPage, ChargedPages};
use vm_types::{
    BlockId, Config, Op, Origin, P0_PAGES, P1_PAGES, PAGE_BYTES, Page, Pfn, Proc, SecId, Section,
    SectionKind,
};

/// Whether the operation changes bytes.
pub fn changes(op: Op) -> bool
    ensures { result ≡ is_change op }
{
    match op {
        Op::Read(_) => false,
        Op::Write(..) | Op::Add(_) => true,
    }
}

/// Whether it is the place of a valid entry.
pub fn is_valid(place: Place) -> bool
    ensures { result ≡ is_valid place }
{
    matches!(place, Place::Valid { .. })
}

/// What a process has at a page number, by what is behind the page, and by its entry.
pub fn found_shown(
    config: &Config,
    p: Proc,
    vpn: u32,
    from: Option<Origin>,
    entry: Option<Pte>,
) -> Option<Found>
    ensures { result ≡ found_shown config.now p.0 vpn from entry }
{
    match (from, entry) {
        (Some(from), Some(pte)) => Some(Found {
            page: page_over(config, p, vpn, from),
            from,
            prot: pte.prot,
            valid: is_valid(pte.place),
        }),
        _ => None,
    }
}

/// The frame that the entry of a private page names at this place.
fn frame_at(place: Place) -> Option<Pfn>
    ensures { result ≡ frame_at place }
{
    match place {
        Place::Valid { frame, .. } | Place::Transition(frame) => Some(frame),
        _ => None,
    }
}

/// The frame that the entry of a private page names.
fn frame_named(entry: Option<Pte>) -> Option<Pfn>
    ensures { result ≡ frame_named entry }
{
    match entry {
        Some(pte) => frame_at(pte.place),
        None => None,
    }
}

/// Where a private page is, by what is kept of it if it is charged, and by its entry.
pub fn own_backing(row: Option<ChargedPage>, entry: Option<Pte>) -> Backing
    ensures { result ≡ own_backing row entry }
{
    match row {
        Some(row) => Backing {
            charged: true,
            lies: row.lies,
            assigned: row.assigned,
            frame: frame_named(entry),
        },
        None => Backing {
            charged: false,
            lies: None,
            assigned: None,
            frame: None,
        },
    }
}

/// The block in which a shared page lies that isn't charged: its section's; none if the section is in the
/// page file.
pub fn shared_home(config: &Config, s: SecId, i: u32) -> Option<BlockId>
    ensures { result ≡ shared_home config.now s i }
{
    if is_paged(config, Page::Shared(s, i)) {
        None
    } else {
        Some(BlockId::Section(s, i))
    }
}

/// Where a shared page is, by what is kept of it if it is charged, by where it lies else, and by its frame.
pub fn shared_backing(
    row: Option<ChargedPage>,
    home: Option<BlockId>,
    frame: Option<Pfn>,
) -> Backing
    ensures { result ≡ shared_backing row home frame }
{
    match row {
        Some(row) => Backing {
            charged: true,
            lies: row.lies,
            assigned: row.assigned,
            frame,
        },
        None => Backing {
            charged: false,
            lies: home,
            assigned: None,
            frame,
        },
    }
}

/// Whether it is what is kept of a page that was touched.
pub fn is_touched_row(row: Option<ChargedPage>) -> bool
    ensures { result ≡ is_touched_row row }
{
    match row {
        Some(row) => row.touched,
        None => false,
    }
}

/// Whether it is what is kept of a page that wasn't touched.
fn is_waiting(row: Option<ChargedPage>) -> bool
    ensures { result ≡ is_waiting row }
{
    match row {
        Some(row) => !row.touched,
        None => false,
    }
}

/// Whether some page of a process with a number from one on and below another is charged that wasn't
/// touched.
fn waits_between(pages: &ChargedPages, p: Proc, from: u32, to: u32) -> bool
    ensures some { result ≡ true → HasWaiting pages.now }
    ensures none { result ≡ false → (v : ℕ) → from ≤ v → v < to → is_waiting (kept_at pages.now (Page.Private p v)) ≡ false }
{
    for vpn in from..to {
        if is_waiting(pages.at(Page::Private(p, vpn))) {
            return true;
        }
    }
    false
}

/// Whether some page of a process is charged that wasn't touched.
fn process_waits(pages: &ChargedPages, p: Proc) -> bool
    ensures some { result ≡ true → HasWaiting pages.now }
    ensures none { result ≡ false → NoneWaits pages.now p.0 }
{
    waits_between(pages, p, 0, P0_PAGES) || waits_between(pages, p, (1 << 22) - P1_PAGES, 1 << 22)
}

/// Whether some page of so many processes is charged that wasn't touched.
fn some_own_waits(pages: &ChargedPages, procs: u32) -> bool
    ensures some { result ≡ true → HasWaiting pages.now }
    ensures none { result ≡ false → (p : ℕ) → p < procs → NoneWaits pages.now p }
{
    for p in 0..procs {
        if process_waits(pages, Proc(p)) {
            return true;
        }
    }
    false
}

/// Whether one of so many pages of a section is charged that wasn't touched.
fn section_waits(pages: &ChargedPages, s: SecId, count: u32) -> bool
    ensures some { result ≡ true → HasWaiting pages.now }
    ensures none { result ≡ false → (i : ℕ) → i < count → is_waiting (kept_at pages.now (Page.Shared s i)) ≡ false }
{
    for i in 0..count {
        if is_waiting(pages.at(Page::Shared(s, i))) {
            return true;
        }
    }
    false
}

/// How many pages of a section the page file may have: all if it is in the page file, and none else.
fn paged_pages(section: &Section) -> u32
    requires { section_pages section.now < 2 ^ 32 }
    ensures { result ≡ paged_pages section.now }
{
    match section.kind {
        SectionKind::Paged => (section.bytes.items().len() / PAGE_BYTES as usize) as u32,
        SectionKind::Shared | SectionKind::Crf => 0,
    }
}

/// Whether some page of a section in the page file is charged that wasn't touched.
fn some_shared_waits(pages: &ChargedPages, sections: &[Section]) -> bool
    requires count { length sections.now < 2 ^ 32 }
    requires few { All (λ s. section_pages s < 2 ^ 32) sections.now }
    ensures some { result ≡ true → HasWaiting pages.now }
    ensures none { result ≡ false → (s : ℕ) → s < length sections.now → NoneShared pages.now sections.now s }
{
    for s in 0..sections.len() {
        if section_waits(pages, SecId(s as u32), paged_pages(&sections[s])) {
            return true;
        }
    }
    false
}

/// Whether some page is charged that wasn't touched: of so many processes, or of one of the sections.
pub fn some_waits(pages: &ChargedPages, procs: u32, sections: &[Section]) -> bool
    requires count { length sections.now < 2 ^ 32 }
    requires few { All (λ s. section_pages s < 2 ^ 32) sections.now }
    ensures some { result ≡ true → HasWaiting pages.now }
    ensures own { result ≡ false → (p : ℕ) → p < procs → NoneWaits pages.now p }
    ensures shared { result ≡ false → (s : ℕ) → s < length sections.now → NoneShared pages.now sections.now s }
{
    some_own_waits(pages, procs) || some_shared_waits(pages, sections)
}
