ghost use Rattle.std.specs.Prelude.{◌≡◌, ◌↔◌, ◌^◌, ◌<◌, ℕ, Some, true, IfOk, IsTrue, OnOk, map};
ghost use Rattle.vm_types.specs.declared.config.Section.{Section as SectionOf};
ghost use Rattle.vm_types.specs.declared.names.BlockId.{BlockId as Block};
ghost use Rattle.vm_types.specs.declared.names.Page.{Page as AnyPage};
ghost use Rattle.pager_model.specs.Maps.{proc};
ghost use Rattle.pager_model.specs.Sets.{at_page};
ghost use Rattle.shadow_tables.specs.Lying.{AreListed, first_by, is_swap, lies_by};
ghost use Rattle.shadow_tables.specs.PageTables.{item_of};

use crate::lists::first_block;
use crate::page_table::PageTable;
use std::alloc::{AllocError, Global};
use std::marker::Model;
use vm_types::{BlockId, NoMemory, Page, Proc, Section, SectionKind};

/// Where each page lies: in a block, or nowhere. Contracts see the kinds of the sections, and what was said of pages.
#[derive(Debug, Drop)]
pub struct LyingPages {
    /// The kinds of the sections, which say where a page lies at first.
    kinds: Vec<SectionKind>,
    /// Where the pages lie of which something else was said.
    said: PageTable<Option<BlockId>>,
    /// The pages that were ever said to lie in a swap block, each once.
    swapped: Vec<Page>,
    listed: PageTable<bool>,
}

impl Model for LyingPages {
    ghost use Rattle.std.specs.Prelude.{List, Option};
    ghost use Rattle.vm_types.specs.declared.names.BlockId.{BlockId};
    ghost use Rattle.vm_types.specs.declared.config.SectionKind.{SectionKind};
    ghost use Rattle.shadow_tables.specs.Lying.{AreSwapped};
    ghost use Rattle.shadow_tables.specs.PageTables.{item_of};

    ghost Value = { List SectionKind × (List (Option (Option BlockId)) × List (List (Option (Option BlockId)))) };

    ghost view = { λ l. (l.kinds.items, l.said) };

    ghost invariant = { λ l. AreSwapped (item_of l.said) (item_of l.listed) l.swapped.items };
}

/// Whether the block is a swap block.
fn is_swap(block: Option<BlockId>) -> bool
    ensures { result ≡ is_swap block }
{
    matches!(block, Some(BlockId::Swap(_, _)))
}

/// Whether the block is a swap block of the process.
fn is_swap_of(block: Option<BlockId>, p: Proc) -> bool
    ensures { IsTrue result ↔ ((n : ℕ) × (block ≡ Some (Block.Swap (proc p.0) n))) }
{
    match block {
        Some(BlockId::Swap(q, _)) => q.0 == p.0,
        Some(BlockId::Section(_, _) | BlockId::PageFile(_)) | None => false,
    }
}

/// The kind of each section.
fn kinds_of(alloc: Global, sections: &[Section]) -> Result<Vec<SectionKind>, AllocError>
    ensures { IfOk result (λ kinds. kinds.items ≡ map (λ (section : SectionOf). section.kind) sections.now) }
{
    sections.iter().map(|section| section.kind).collect(alloc)
}

/// Takes a page into the list of those that were said to lie in a swap block, if it is to be there and isn't.
fn list(
    there: bool,
    listed: &mut PageTable<bool>,
    swapped: &mut Vec<Page>,
    page: Page,
) -> Result<(), NoMemory>
    ensures within { AreListed (item_of listed.old) swapped.old.items → AreListed (item_of listed.new) swapped.new.items }
    ensures others { (g : AnyPage) → item_of listed.old g ≡ Some true → item_of listed.new g ≡ Some true }
    ensures listed { OnOk result (there ≡ true → item_of listed.new page ≡ Some true) }
{
    if !there {
        return Ok(());
    }
    if let Some(true) = listed.at(page) {
        return Ok(());
    }
    swapped.push(page)?;
    if listed.set(page, Some(true)) {
        Ok(())
    } else {
        Err(NoMemory)
    }
}

impl LyingPages {
    /// Each page of so many processes (less than 2^32) and of these sections lies where it lies at first.
    ///
    /// # Errors
    /// `NoMemory` if out of memory.
    pub fn new(alloc: Global, procs: usize, sections: &[Section]) -> Result<LyingPages, NoMemory>
        requires { procs < 2 ^ 32 }
        ensures { IfOk result (λ l. (g : AnyPage) → lies_by l g ≡ first_by (map (λ (section : SectionOf). section.kind) sections.now) g) }
    {
        Ok(LyingPages {
            kinds: kinds_of(alloc, sections)?,
            said: PageTable::new(alloc, procs, sections)?,
            swapped: Vec::new(alloc),
            listed: PageTable::new(alloc, procs, sections)?,
        })
    }

    /// The block in which a page lies.
    pub fn at(&self, page: Page) -> Option<BlockId>
        ensures { result ≡ lies_by self.now page }
    {
        match self.said.at(page) {
            Some(block) => block,
            None => first_block(&self.kinds, page),
        }
    }

    /// Says where a page lies.
    ///
    /// # Errors
    /// `NoMemory` if out of memory, or if the page has no place; nothing is changed then.
    pub fn lay(&mut self, page: Page, block: Option<BlockId>) -> Result<(), NoMemory>
        ensures { OnOk result (lies_by self.new ≡ at_page (lies_by self.old) page block) }
    {
        let swapped = is_swap(block);
        list(swapped, &mut self.listed, &mut self.swapped, page)?;
        if !self.said.set(page, Some(block)) {
            return Err(NoMemory);
        }
        Ok(())
    }

    /// Whether no page lies in a swap block of a process.
    pub fn none_is_swapped(&self, p: Proc) -> bool
        ensures { IsTrue result ↔ ((g : AnyPage) (n : ℕ) → lies_by self.now g ≡ Some (Block.Swap (proc p.0) n) → ⊥) }
    {
        for page in &self.swapped {
            if is_swap_of(self.at(*page), p) {
                return false;
            }
        }
        true
    }
}
