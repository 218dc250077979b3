ghost use Rattle.std.specs.Prelude.{◌≡◌, ◌+◌, ◌*◌, ◌^◌, ◌<◌, ◌≤◌, ℕ, None, IfOk, IsSome, length, map};
ghost use Rattle.vm_types.specs.declared.limits.TheConstants.{PRIVATE_PAGES};
ghost use Rattle.vm_types.specs.PagePlaces.{changed_at, item_at, region_place};
ghost use Rattle.state_parts.specs.ChargedTable.{first_rows, section_runs};

use crate::charged_page::ChargedPage;
use page_rows::PageRows;
use std::alloc::Global;
use std::marker::Model;
use vm_types::{NoMemory, PAGE_BYTES, Page, Proc, Section, SectionKind, page_place};

/// How many runs of 64 pages a process may map.
const RUNS: usize = 80;

/// Of each page that is charged what is kept of it: of private pages, and of pages of sections in the
/// page file. A private page is numbered by its first address divided by 512.
#[derive(Debug, Drop)]
pub struct ChargedPages {
    procs: usize,
    pages: PageRows<ChargedPage>,
    /// By section; none of a section with a file.
    shared: Vec<PageRows<ChargedPage>>,
}

impl Model for ChargedPages {
    ghost use Rattle.std.specs.Prelude.{◌≡◌, ◌*◌, length};
    ghost use Rattle.vm_types.specs.declared.limits.TheConstants.{PRIVATE_PAGES};
    ghost use Rattle.state_parts.specs.ChargedTable.{ChargedTable};

    ghost Value = { ChargedTable };

    ghost view = { λ t. record { procs = t.procs; pages = t.pages; shared = t.shared.items } };

    ghost invariant = { λ t. length t.pages ≡ t.procs * PRIVATE_PAGES };
}

impl ChargedPages {
    ghost use Rattle.state_parts.specs.ChargedTable.{HasPagedPlaces, HasPlace, IsTableSet, kept_at};
    ghost use Rattle.vm_types.specs.declared.names.Page.{Page};

    /// The table of so many processes (any number) and of these sections, with no page charged. No other
    /// call allocates.
    ///
    /// # Errors
    /// `NoMemory` if out of memory.
    #[tactic(auto, using(crate::proofs::TableSet::places_first))]
    pub fn new(alloc: Global, procs: u32, sections: &[Section]) -> Result<ChargedPages, NoMemory>
        ensures procs { IfOk result (λ t. t.procs ≡ procs) }
        ensures places { IfOk result (HasPagedPlaces sections.now) }
        ensures none { IfOk result (λ t. (g : Page) → kept_at t g ≡ None) }
    {
        let procs = procs as usize;
        Ok(ChargedPages {
            procs,
            pages: PageRows::new(alloc, procs * RUNS)?,
            shared: section_rows(alloc, sections)?,
        })
    }

    /// What is kept of a page (any numbers); none if it isn't charged.
    #[tactic(auto, using(crate::proofs::TableSet::kept_place))]
    #[inline(always)]
    pub fn at(&self, page: Page) -> Option<ChargedPage>
        ensures value { result ≡ kept_at self.now page }
        ensures place { IsSome result → HasPlace self.now page }
    {
        match page {
            Page::Private(p, vpn) => self.pages.get(page_place(p, vpn)?),
            Page::Shared(s, i) => self.shared.get(s.0 as usize)?.get(i as usize),
        }
    }

    /// Sets what is kept of a page that has a place; none if it isn't charged.
    #[tactic(auto, using(crate::proofs::TableSet::own_set))]
    pub fn set(&mut self, page: Page, kept: Option<ChargedPage>)
        requires { HasPlace self.old page }
        ensures { IsTableSet self.old self.new page kept }
    {
        match page {
            Page::Private(p, vpn) => set_own(&mut self.pages, p, vpn, kept),
            Page::Shared(s, i) => self.shared[s.0 as usize].set(i as usize, kept),
        }
    }
}

/// Sets what is kept of a private page.
fn set_own(pages: &mut PageRows<ChargedPage>, p: Proc, vpn: u32, kept: Option<ChargedPage>)
    requires page { IsSome (region_place vpn) }
    requires within { (p.0 + 1) * PRIVATE_PAGES ≤ length pages.old }
    ensures changed { (q w : ℕ) → item_at pages.new q w ≡ changed_at (item_at pages.old) p.0 vpn kept q w }
    ensures places { length pages.new ≡ length pages.old }
{
    let place = page_place(p, vpn).unwrap();
    pages.set(place, kept);
}

/// How many runs of 64 pages the table has for a section: those that its pages need if it is in the page
/// file, and none else.
fn section_runs(section: &Section) -> usize
    ensures runs { result ≡ section_runs section.now }
    ensures small { result * 64 < 2 ^ 63 }
{
    match section.kind {
        SectionKind::Paged => section.bytes.items().len() / PAGE_BYTES as usize / 64 + 1,
        SectionKind::Shared | SectionKind::Crf => 0,
    }
}

/// No row of any page of the sections.
fn section_rows(alloc: Global, sections: &[Section]) -> Result<Vec<PageRows<ChargedPage>>, NoMemory>
    ensures { IfOk result (λ v. v.items ≡ map first_rows sections.now) }
{
    let mut rows = Vec::new(alloc);
    for section in sections {
        rows.push(PageRows::new(alloc, section_runs(section))?)?;
    }
    Ok(rows)
}
