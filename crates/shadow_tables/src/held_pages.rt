ghost use Rattle.std.specs.Prelude.{◌≡◌, ◌↔◌, ◌^◌, ◌<◌, ℕ, None, Some, IfOk, IsTrue, OnOk, length, replicate, slice_get, slice_index_or, slice_set};
ghost use Rattle.shadow_tables.specs.Listed.{held_by};
ghost use Rattle.std.specs.Prelude.{count_by};

use crate::counting::{one_less, one_more};
use crate::page_table::PageTable;
use std::alloc::Global;
use std::marker::Model;
use vm_types::{NoMemory, Page, Section};

/// The pages that frames hold, by frame, and how many frames hold each page. Contracts see the list of frames.
#[derive(Debug, Drop)]
pub struct HeldPages {
    held: Vec<Option<Page>>,
    counts: PageTable<u32>,
}

impl Model for HeldPages {
    ghost use Rattle.std.specs.Prelude.{List, Option};
    ghost use Rattle.vm_types.specs.declared.names.Page.{Page};
    ghost use Rattle.shadow_tables.specs.Listed.{AreHolders};
    ghost use Rattle.shadow_tables.specs.PageTables.{item_of};

    ghost Value = { List (Option Page) };

    ghost view = { λ h. h.held.items };

    ghost invariant = { λ h. AreHolders h.held.items (item_of h.counts) };
}

impl HeldPages {
    /// So many frames, which hold nothing, of pages of so many processes (less than 2^32) and of these sections.
    ///
    /// # Errors
    /// `NoMemory` if out of memory.
    pub fn new(
        alloc: Global,
        frames: usize,
        procs: usize,
        sections: &[Section],
    ) -> Result<HeldPages, NoMemory>
        requires { procs < 2 ^ 32 }
        ensures { IfOk result (λ h. h ≡ replicate frames None) }
    {
        Ok(HeldPages {
            held: vec![in alloc; None; frames]?,
            counts: PageTable::new(alloc, procs, sections)?,
        })
    }

    /// What each frame holds.
    pub fn items(&self) -> &[Option<Page>]
        ensures { result.now ≡ self.now }
    {
        &self.held
    }

    /// What a frame holds; one that isn't there holds nothing.
    pub fn at(&self, f: usize) -> Option<Page>
        ensures { result ≡ slice_index_or self.now f None }
    {
        self.held.get(f).copied().flatten()
    }

    /// How many frames hold a page.
    fn count(&self, page: Page) -> u32
        ensures { result ≡ count_by (held_by page) self.now }
    {
        self.counts.at(page).unwrap_or(0)
    }

    /// Whether no frame holds a page.
    pub fn is_out(&self, page: Page) -> bool
        ensures { IsTrue result ↔ ((f : ℕ) → slice_get self.now f ≡ Some (Some page) → ⊥) }
    {
        self.count(page) == 0
    }

    /// A frame that holds a page holds nothing any more.
    fn release(&mut self, f: usize, page: Page) -> Result<(), NoMemory>
        requires within { f < length self.old }
        requires held { slice_index_or self.old f None ≡ Some page }
        ensures ok { OnOk result (self.new ≡ slice_set self.old f None) }
        ensures len { length self.new ≡ length self.old }
    {
        let count = one_less(self.count(page))?;
        if !self.counts.set(page, Some(count)) {
            return Err(NoMemory);
        }
        self.held[f] = None;
        Ok(())
    }

    /// A frame that holds nothing is given nothing.
    fn leave(&mut self, f: usize)
        requires within { f < length self.old }
        requires empty { slice_index_or self.old f None ≡ None }
        ensures { self.new ≡ slice_set self.old f None }
    {
        self.held[f] = None;
    }

    /// A frame that is there holds nothing any more.
    fn clear(&mut self, f: usize) -> Result<(), NoMemory>
        requires { f < length self.old }
        ensures ok { OnOk result (self.new ≡ slice_set self.old f None) }
        ensures len { length self.new ≡ length self.old }
    {
        match self.at(f) {
            Some(page) => self.release(f, page),
            None => {
                self.leave(f);
                Ok(())
            }
        }
    }

    /// A frame that is there, and holds nothing, holds a page.
    fn fill(&mut self, f: usize, page: Page) -> Result<(), NoMemory>
        requires within { f < length self.old }
        requires empty { slice_index_or self.old f None ≡ None }
        ensures ok { OnOk result (self.new ≡ slice_set self.old f (Some page)) }
        ensures len { length self.new ≡ length self.old }
    {
        let count = one_more(self.count(page))?;
        if !self.counts.set(page, Some(count)) {
            return Err(NoMemory);
        }
        self.held[f] = Some(page);
        Ok(())
    }

    /// A frame that is there holds this.
    ///
    /// # Errors
    /// `NoMemory` if the page has no place, or if a count is full; the frame may hold nothing then.
    pub fn set(&mut self, f: usize, page: Option<Page>) -> Result<(), NoMemory>
        requires { f < length self.old }
        ensures ok { OnOk result (self.new ≡ slice_set self.old f page) }
        ensures len { length self.new ≡ length self.old }
    {
        self.clear(f)?;
        match page {
            Some(page) => self.fill(f, page),
            None => Ok(()),
        }
    }
}
