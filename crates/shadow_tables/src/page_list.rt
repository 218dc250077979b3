ghost use Rattle.std.specs.Prelude.{◌≡◌, ◌^◌, ◌<◌, ◌∷◌, [], IfOk, OnOk, length};
ghost use Rattle.pager_model.specs.Changes.{without_page};
ghost use Rattle.pager_model.specs.Lookups.{count_page};
ghost use Rattle.pager_model.specs.Sets.{has_page};

use crate::changes::{Change, Changes};
use crate::counting::{longer, one_more, shorter};
use crate::page_table::PageTable;
use std::alloc::Global;
use std::marker::Model;
use vm_types::{NoMemory, Page, Section};

/// A list of pages, the newest first: how often each page stands in it, and how long it is, and of the list itself
/// what proofs read. Contracts see the list.
#[derive(Drop)]
pub struct PageList {
    counts: PageTable<u32>,
    len: usize,
    changes: Changes,
}

impl Model for PageList {
    ghost use Rattle.std.specs.Prelude.{List};
    ghost use Rattle.vm_types.specs.declared.names.Page.{Page};
    ghost use Rattle.shadow_tables.specs.Listed.{ArePageCounts, pages_after};
    ghost use Rattle.shadow_tables.specs.PageTables.{item_of};

    ghost Value = { List Page };

    ghost view = { λ l. pages_after l.changes.list };

    ghost invariant = { λ l. ArePageCounts (pages_after l.changes.list) (item_of l.counts) l.len };
}

impl PageList {
    /// No pages, of so many processes (less than 2^32) and of these sections.
    ///
    /// # Errors
    /// `NoMemory` if out of memory.
    pub fn new(alloc: Global, procs: usize, sections: &[Section]) -> Result<PageList, NoMemory>
        requires { procs < 2 ^ 32 }
        ensures { IfOk result (λ l. l ≡ []) }
    {
        Ok(PageList {
            counts: PageTable::new(alloc, procs, sections)?,
            len: 0,
            changes: Changes::new(),
        })
    }

    /// How many pages there are.
    pub fn len(&self) -> usize
        ensures { result ≡ length self.now }
    {
        self.len
    }

    /// How often a page is there.
    pub fn count(&self, page: Page) -> u32
        ensures { result ≡ count_page self.now page }
    {
        self.counts.at(page).unwrap_or(0)
    }

    /// Whether a page is there.
    #[tactic(auto, using(crate::proofs::Counted::has_counted))]
    pub fn has(&self, page: Page) -> bool
        ensures { result ≡ has_page self.now page }
    {
        self.count(page) != 0
    }

    /// Puts a page in front.
    ///
    /// # Errors
    /// `NoMemory` if the page has no place, or if a count is full; nothing is changed then.
    pub fn put(&mut self, page: Page) -> Result<(), NoMemory>
        ensures { OnOk result (self.new ≡ page ∷ self.old) }
    {
        let count = one_more(self.count(page))?;
        let len = longer(self.len)?;
        if !self.counts.set(page, Some(count)) {
            return Err(NoMemory);
        }
        self.len = len;
        self.changes = self.changes.then(&Change::Put(page));
        Ok(())
    }

    /// Takes a page away, each time that it is there.
    ///
    /// # Errors
    /// `NoMemory` if the page has no place; nothing is changed then.
    pub fn remove(&mut self, page: Page) -> Result<(), NoMemory>
        ensures { OnOk result (self.new ≡ without_page self.old page) }
    {
        let len = shorter(self.len, self.count(page))?;
        if !self.counts.set(page, None) {
            return Err(NoMemory);
        }
        self.len = len;
        self.changes = self.changes.then(&Change::Taken(page));
        Ok(())
    }
}
