ghost use Rattle.std.specs.Prelude.{◌≡◌, ◌*◌, ◌^◌, ◌<◌, [], None, IfOk, slice_index_or};
ghost use Rattle.vm_types.specs.PagePlaces.{item_at};
ghost use Rattle.vm_types.specs.declared.names.Page.{Page as AnyPage};
ghost use Rattle.shadow_tables.specs.PageTables.{IsRowSet, IsTableSet, first_rows, item_of, section_runs};

use crate::rows::Rows;
use std::alloc::Global;
use std::marker::Model;
use vm_types::{NoMemory, PAGE_BYTES, Page, Proc, SecId, Section, page_place};

/// How many runs of 64 pages a process may map.
const RUNS: usize = 80;

/// Of each page that a process may map, and of each page of a section, an item or none; any other page has a place
/// for none. Contracts see the items by place, and of each section
/// those of its pages.
#[derive(Debug, Drop)]
pub struct PageTable<T> {
    own: Rows<T>,
    sections: Vec<Rows<T>>,
}

impl<T> Model for PageTable<T> {
    ghost use Rattle.std.specs.Prelude.{List, Option};

    ghost Value = { List (Option T) × List (List (Option T)) };

    ghost view = { λ t. (t.own, t.sections.items) };
}

/// How many runs of 64 pages a section has.
fn section_runs(section: &Section) -> usize
    ensures runs { result ≡ section_runs section.now }
    ensures small { result * 64 < 2 ^ 63 }
{
    section.bytes.items().len() / PAGE_BYTES as usize / 64 + 1
}

/// Places without items for the pages of each section.
fn section_rows<T: Copy>(alloc: Global, sections: &[Section]) -> Result<Vec<Rows<T>>, NoMemory>
    ensures { IfOk result (λ v. v.items ≡ first_rows sections.now) }
{
    let mut rows = Vec::new(alloc);
    for section in sections {
        rows.push(Rows::new(alloc, section_runs(section))?)?;
    }
    Ok(rows)
}

/// The item of a page of a process.
fn own_at<T: Copy>(own: &Rows<T>, p: Proc, vpn: u32) -> Option<T>
    ensures { result ≡ item_at own.now p.0 vpn }
{
    own.at(page_place(p, vpn)?)
}

/// The item of a page of a section.
#[tactic(auto, using(crate::proofs::PageTables::row_there, crate::proofs::PageTables::no_row))]
fn section_at<T: Copy>(sections: &[Rows<T>], s: SecId, i: u32) -> Option<T>
    ensures { result ≡ slice_index_or (slice_index_or sections.now s.0 []) i None }
{
    match sections.get(s.0 as usize) {
        Some(rows) => rows.at(i as usize),
        None => None,
    }
}

/// Gives a place an item, or none, if there is such a place, and says whether there is.
fn set_in<T: Copy>(rows: &mut Rows<T>, place: usize, item: Option<T>) -> bool
    ensures { IsRowSet rows.old rows.new place item result }
{
    if place < rows.len() {
        rows.set(place, item);
        true
    } else {
        false
    }
}

impl<T: Copy> PageTable<T> {
    /// No page has an item, and each page of so many processes (less than 2^32) and of these sections has a place.
    ///
    /// # Errors
    /// `NoMemory` if out of memory.
    pub fn new(alloc: Global, procs: usize, sections: &[Section]) -> Result<PageTable<T>, NoMemory>
        requires { procs < 2 ^ 32 }
        ensures { IfOk result (λ t. (g : AnyPage) → item_of t g ≡ None) }
    {
        let own = Rows::new(alloc, procs * RUNS)?;
        let sections = section_rows(alloc, sections)?;
        Ok(PageTable { own, sections })
    }

    /// The item of a page (any numbers).
    pub fn at(&self, page: Page) -> Option<T>
        ensures { result ≡ item_of self.now page }
    {
        match page {
            Page::Private(p, vpn) => own_at(&self.own, p, vpn),
            Page::Shared(s, i) => section_at(&self.sections, s, i),
        }
    }

    /// Gives a page (any numbers) an item, or none, and says whether it has a place.
    pub fn set(&mut self, page: Page, item: Option<T>) -> bool
        ensures { IsTableSet self.old self.new page item result }
    {
        match page {
            Page::Private(p, vpn) => match page_place(p, vpn) {
                Some(place) => set_in(&mut self.own, place, item),
                None => false,
            },
            Page::Shared(s, i) => {
                if (s.0 as usize) < self.sections.len() {
                    set_in(&mut self.sections[s.0 as usize], i as usize, item)
                } else {
                    false
                }
            }
        }
    }
}
