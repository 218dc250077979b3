ghost use Rattle.std.specs.Prelude.{◌≡◌, ℕ, ◌+◌, ◌-◌, ◌<◌, ◌↔◌, length, replicate, slice_set, is_none, position, vec_capacity, IsErr, IfOk, OnOk, OnErr};
ghost use Rattle.page_file.specs.Blocks.{all_owners};

use crate::full::Full;
use std::alloc::Global;
use std::marker::Model;
use vm_types::{NoMemory, Page};

/// The blocks of a page file, of 512 bytes each, numbered from 0. Source: Kenah and Bate, "VAX/VMS
/// Internals and Data Structures", page files.
#[derive(Debug, Drop)]
pub struct PageFile {
    /// The pages that the blocks are assigned to, up to the greatest block that was assigned so far: none
    /// where a block is free. There is room for all blocks.
    owners: Vec<Option<Page>>,
    /// How many blocks there are.
    blocks: u32,
    charges: u32,
    assignments: u32,
    /// No block below this one is free; at most the length of `owners`.
    hint: u32,
}

impl Model for PageFile {
    ghost use Rattle.std.specs.Prelude.{◌≡◌, ◌≤◌, length, vec_capacity};
    ghost use Rattle.page_file.specs.Blocks.{Blocks, AreBlocks, NoneFreeBelow, assigned_blocks, blocks_of};

    ghost Value = { Blocks };

    ghost view = { λ f. blocks_of f.charges f.owners.items f.blocks };

    ghost invariant = { λ f. (f.assignments ≡ assigned_blocks (blocks_of f.charges f.owners.items f.blocks))
        × AreBlocks (blocks_of f.charges f.owners.items f.blocks)
        × (length f.owners.items ≤ f.blocks)
        × (f.blocks ≤ vec_capacity f.owners)
        × (f.hint ≤ length f.owners.items)
        × NoneFreeBelow (blocks_of f.charges f.owners.items f.blocks) f.hint };
}

impl PageFile {
    ghost use Rattle.page_file.specs.Blocks.{AreBlocks, IsFreeBlock, IsAssignedBlock, assigned_blocks, owner_of};

    /// A page file of so many blocks (any number): none is charged, and each is free. Takes memory for
    /// all of them, and touches none of it. No other call takes memory.
    ///
    /// # Errors
    /// `NoMemory` for want of memory.
    pub fn new(alloc: Global, blocks: u32) -> Result<PageFile, NoMemory>
        ensures made { IfOk result (λ f. f ≡ record { charged = 0; owners = replicate blocks None }) }
        ensures blocks { IfOk result (λ f. AreBlocks f) }
    {
        Ok(PageFile {
            owners: Vec::with_capacity(alloc, blocks as usize)?,
            blocks,
            charges: 0,
            assignments: 0,
            hint: 0,
        })
    }

    /// Charges one block more.
    ///
    /// # Errors
    /// `Full` where every block is charged; the page file is then as before.
    pub fn charge(&mut self) -> Result<(), Full>
        ensures full { IsErr result ↔ (self.old.charged ≡ length self.old.owners) }
        ensures ok { OnOk result (self.new ≡ record self.old { charged = self.old.charged + 1 }) }
        ensures err { OnErr result (self.new ≡ self.old) }
        ensures blocks { AreBlocks self.new }
    {
        if self.charges == self.blocks {
            return Err(Full);
        }
        self.charges += 1;
        Ok(())
    }

    /// Charges one block less.
    pub fn uncharge(&mut self)
        requires { assigned_blocks self.old < self.old.charged }
        ensures value { self.new ≡ record self.old { charged = self.old.charged - 1 } }
        ensures blocks { AreBlocks self.new }
    {
        self.charges -= 1;
    }

    /// Assigns a free block to the page.
    pub fn assign(&mut self, block: u32, page: Page)
        requires free { IsFreeBlock self.old block }
        requires charged { assigned_blocks self.old < self.old.charged }
        ensures value { self.new ≡ record self.old { owners = slice_set self.old.owners block (Some page) } }
        ensures assigned { assigned_blocks self.new ≡ assigned_blocks self.old + 1 }
        ensures blocks { AreBlocks self.new }
    {
        reach(&mut self.owners, block);
        self.owners[block as usize] = Some(page);
        self.assignments += 1;
        if block == self.hint {
            self.hint += 1;
        }
    }

    /// The lowest free block. Looks at each block once at most, and at one block at most where, since
    /// the page file was made or its lowest free block was released, each block was assigned as the
    /// lowest.
    pub fn lowest(&self) -> u32
        requires { assigned_blocks self.now < self.now.charged }
        ensures free { IsFreeBlock self.now result }
        ensures lowest { (k : ℕ) → k < result → ¬ IsFreeBlock self.now k }
        ensures blocks { AreBlocks self.now }
    {
        let from = self.hint as usize;
        let rest = &self.owners[from..];
        (from + first_free(rest).unwrap_or(rest.len())) as u32
    }

    /// Makes an assigned block free.
    pub fn release(&mut self, block: u32)
        requires { IsAssignedBlock self.old block }
        ensures value { self.new ≡ record self.old { owners = slice_set self.old.owners block None } }
        ensures assigned { assigned_blocks self.new + 1 ≡ assigned_blocks self.old }
        ensures blocks { AreBlocks self.new }
    {
        self.owners[block as usize] = None;
        self.assignments -= 1;
        self.hint = self.hint.min(block);
    }

    /// The page that the block is assigned to: none where it is free, or there is no such block.
    pub fn owner(&self, block: u32) -> Option<Page>
        ensures value { result ≡ owner_of self.now block }
        ensures blocks { AreBlocks self.now }
    {
        self.owners.get(block as usize).copied().flatten()
    }

    /// How many blocks are charged, at most as many as there are.
    pub fn charged(&self) -> u32
        ensures value { result ≡ self.now.charged }
        ensures blocks { AreBlocks self.now }
    {
        self.charges
    }

    /// How many blocks are assigned, at most as many as are charged.
    pub fn assigned(&self) -> u32
        ensures value { result ≡ assigned_blocks self.now }
        ensures blocks { AreBlocks self.now }
    {
        self.assignments
    }
}

/// Writes that the blocks up to this one are free, those that aren't written yet.
#[tactic(auto, using(crate::proofs::Written::all_more, crate::proofs::Written::all_written))]
fn reach(owners: &mut Vec<Option<Page>>, block: u32)
    requires { block < vec_capacity owners.old }
    ensures owners { owners.new.items ≡ all_owners owners.old.items (block + 1) }
    ensures capacity { vec_capacity owners.new ≡ vec_capacity owners.old }
{
    while owners.len() <= block as usize {
        owners.push_reserved(None);
    }
}

/// The first free block, by the pages that the blocks are assigned to.
fn first_free(owners: &[Option<Page>]) -> Option<usize>
    ensures { result ≡ position is_none owners.now }
{
    owners.iter().position(|owner| owner.is_none())
}
