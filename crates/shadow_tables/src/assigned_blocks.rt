ghost use Rattle.std.specs.Prelude.{◌≡◌, ◌+◌, ◌^◌, ◌<◌, ◌∷◌, [], None, Some, IfOk, OnOk, count_by, length, slice_index_or};
ghost use Rattle.pager_model.specs.Changes.{without_assigned};
ghost use Rattle.pager_model.specs.Lookups.{block_of, is_owner};
ghost use Rattle.pager_model.specs.Out.{assigned_with};
ghost use Rattle.vm_types.specs.declared.names.BlockId.{BlockId as Block};

use crate::changes::{Change, Changes};
use crate::counting::{longer, shorter};
use crate::page_table::PageTable;
use std::alloc::Global;
use std::marker::Model;
use vm_types::{BlockId, NoMemory, Page, Section};

/// The page file blocks that are assigned to pages, one at most to each page. Contracts see a list, the newest
/// first.
#[derive(Drop)]
pub struct AssignedBlocks {
    blocks: PageTable<u32>,
    /// To how many pages each block is assigned.
    owners: Vec<u32>,
    len: usize,
    changes: Changes,
}

impl Model for AssignedBlocks {
    ghost use Rattle.std.specs.Prelude.{List};
    ghost use Rattle.pager_model.specs.Pager.{Assigned};
    ghost use Rattle.shadow_tables.specs.Listed.{AreAssigned, assigned_after};
    ghost use Rattle.shadow_tables.specs.PageTables.{item_of};

    ghost Value = { List Assigned };

    ghost view = { λ a. assigned_after a.changes.list };

    ghost invariant = { λ a. AreAssigned (assigned_after a.changes.list) (item_of a.blocks) a.owners.items a.len };
}

/// A count, or 0 where there is none.
fn count_at(counts: &[u32], n: u32) -> u32
    ensures { result ≡ slice_index_or counts.now n 0 }
{
    counts.get(n as usize).copied().unwrap_or(0)
}

/// One more than a count that is there.
fn more_at(counts: &[u32], n: u32) -> Result<u32, NoMemory>
    ensures within { IfOk result (λ m. n < length counts.now) }
    ensures more { IfOk result (λ m. m ≡ slice_index_or counts.now n 0 + 1) }
{
    match counts.get(n as usize) {
        Some(count) => count.checked_add(1).ok_or(NoMemory),
        None => Err(NoMemory),
    }
}

/// One less than a count that is there.
fn less_at(counts: &[u32], n: u32) -> Result<u32, NoMemory>
    ensures within { IfOk result (λ m. n < length counts.now) }
    ensures less { IfOk result (λ m. m + 1 ≡ slice_index_or counts.now n 0) }
{
    match counts.get(n as usize) {
        Some(count) => count.checked_sub(1).ok_or(NoMemory),
        None => Err(NoMemory),
    }
}

impl AssignedBlocks {
    /// No block of a page file of this size, in blocks, is assigned, to pages of so many processes (less than 2^32)
    /// and of these sections.
    ///
    /// # Errors
    /// `NoMemory` if out of memory.
    pub fn new(
        alloc: Global,
        procs: usize,
        sections: &[Section],
        size: u32,
    ) -> Result<AssignedBlocks, NoMemory>
        requires { procs < 2 ^ 32 }
        ensures { IfOk result (λ a. a ≡ []) }
    {
        Ok(AssignedBlocks {
            blocks: PageTable::new(alloc, procs, sections)?,
            owners: vec![in alloc; 0; size as usize]?,
            len: 0,
            changes: Changes::new(),
        })
    }

    /// How many blocks are assigned.
    pub fn len(&self) -> usize
        ensures { result ≡ length self.now }
    {
        self.len
    }

    /// The block that is assigned to a page.
    pub fn of(&self, page: Page) -> Option<u32>
        ensures { result ≡ block_of self.now page }
    {
        self.blocks.at(page)
    }

    /// To how many pages a block is assigned.
    pub fn owners(&self, block: BlockId) -> usize
        ensures { result ≡ count_by (is_owner block) self.now }
    {
        match block {
            BlockId::PageFile(n) => count_at(&self.owners, n) as usize,
            BlockId::Section(_, _) => 0,
            BlockId::Swap(_, _) => 0,
        }
    }

    /// Assigns a block of the page file to a page that has none.
    fn give(&mut self, page: Page, n: u32) -> Result<(), NoMemory>
        requires { block_of self.old page ≡ None }
        ensures { OnOk result (self.new ≡ record { page = page; block = n } ∷ self.old) }
    {
        let owners = more_at(&self.owners, n)?;
        let len = longer(self.len)?;
        if !self.blocks.set(page, Some(n)) {
            return Err(NoMemory);
        }
        self.owners[n as usize] = owners;
        self.len = len;
        self.changes = self.changes.then(&Change::Given(page, n));
        Ok(())
    }

    /// The block that is assigned to a page is free.
    fn free(&mut self, page: Page, n: u32) -> Result<(), NoMemory>
        requires { block_of self.old page ≡ Some n }
        ensures { OnOk result (self.new ≡ without_assigned self.old page) }
    {
        let owners = less_at(&self.owners, n)?;
        let len = shorter(self.len, 1)?;
        if !self.blocks.set(page, None) {
            return Err(NoMemory);
        }
        self.owners[n as usize] = owners;
        self.len = len;
        self.changes = self.changes.then(&Change::Taken(page));
        Ok(())
    }

    /// Assigns a block of the page file to a page, unless the page has one.
    ///
    /// # Errors
    /// `NoMemory` if there is no such block, if the page has no place, or if a count is full; nothing is changed then.
    pub fn assign(&mut self, page: Page, n: u32) -> Result<(), NoMemory>
        ensures { OnOk result (self.new ≡ assigned_with self.old (Some page) (Block.PageFile n)) }
    {
        match self.of(page) {
            Some(_) => Ok(()),
            None => self.give(page, n),
        }
    }

    /// The block of a page, if it has one, is free.
    ///
    /// # Errors
    /// `NoMemory` is never given for a page that has no block; nothing is changed with it.
    pub fn remove(&mut self, page: Page) -> Result<(), NoMemory>
        ensures { OnOk result (self.new ≡ without_assigned self.old page) }
    {
        match self.of(page) {
            Some(n) => self.free(page, n),
            None => Ok(()),
        }
    }
}
