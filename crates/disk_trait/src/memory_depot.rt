ghost use Rattle.std.specs.Prelude.{◌≡◌, ◌+◌, ◌-◌, ◌^◌, ◌<◌, ◌≤◌, ◌↔◌, [], ◌∷◌, ◌++◌, length, min, map, IsSome, IfSome, IfOk, IsErrOf, OnOk, OnErr, Contains, replicate};
ghost use Rattle.vm_types.specs.declared.limits.TheConstants.{PAGE_BYTES};

use crate::block::Block;
use crate::body::Body;
use crate::depot::{Depot, MakeFault};
use crate::memory_block::MemoryBlock;
use crate::planned_buf::is_due;
use page_pool::{Pool, SpareBuf};
use std::alloc::Global;
use std::marker::Model;
use vm_types::{BlockId, NoMemory};

/// How many blocks have their memory in one region.
const BLOCKS_PER_REGION: u32 = 2048;

/// A depot in memory, which fails at the calls of `make` that it was made to fail at and at no
/// other. Its blocks' memory is in regions, which are left where they are when it is dropped.
#[derive(Drop)]
pub struct MemoryDepot {
    alloc: Global,
    region: Option<Pool>,
    fail_makes: Vec<u32>,
    makes: u64,
    faults: u64,
    retired: Vec<(BlockId, MemoryBlock)>,
}

impl Model for MemoryDepot {
    ghost use Rattle.disk_trait.specs.MemoryDepot.{MemoryStore};

    ghost Value = { MemoryStore };

    ghost view = { λ d. record {
      fail_makes = d.fail_makes.items;
      makes = d.makes;
      faults = d.faults;
      retired = d.retired.items;
    } };
}

impl MemoryDepot {
    ghost use Rattle.disk_trait.specs.MemoryDepot.{CountsCall, names_of};

    /// A depot whose calls of `make` with these numbers fail, counted from 1. Takes no memory.
    pub fn new(alloc: Global, fail_makes: Vec<u32>) -> MemoryDepot
        ensures fail_makes { result.fail_makes ≡ fail_makes.items }
        ensures makes { result.makes ≡ 0 }
        ensures faults { result.faults ≡ 0 }
        ensures retired { result.retired ≡ [] }
    {
        MemoryDepot {
            alloc,
            region: None,
            fail_makes,
            makes: 0,
            faults: 0,
            retired: Vec::new(alloc),
        }
    }

    /// Counts a call of `make`, and gives it a part for a buffer.
    fn next_spare(&mut self) -> Result<SpareBuf, MakeFault>
        ensures counts { CountsCall self.old self.new result }
    {
        self.makes = self.makes.saturating_add(1);
        if is_due(&self.fail_makes, self.makes) {
            self.faults = self.faults.saturating_add(1);
            return Err(MakeFault::Failed);
        }
        Ok(new_spare(self.alloc, &mut self.region)?)
    }

    /// A block of that name that was taken back. Takes no memory.
    pub fn retired(&self, id: BlockId) -> Option<&MemoryBlock>
        ensures found { IsSome result ↔ Contains (names_of self.now.retired) id }
        ensures block { IfSome result (λ b. Contains self.now.retired (id, b.now)) }
    {
        find_block(&self.retired, id)
    }
}

/// A part of the region, or of a new one if there is none with room.
fn new_spare(alloc: Global, region: &mut Option<Pool>) -> Result<SpareBuf, NoMemory> {
    if let Some(pool) = region {
        if let Some(spare) = pool.take_spare() {
            return Ok(spare);
        }
    }
    let mut pool = Pool::new(alloc, BLOCKS_PER_REGION)?;
    let spare = pool.take_spare().unwrap();
    *region = Some(pool);
    Ok(spare)
}

/// A block of that name in the list.
fn find_block(blocks: &[(BlockId, MemoryBlock)], id: BlockId) -> Option<&MemoryBlock>
    ensures found { IsSome result ↔ Contains (map (λ p. p.0) blocks.now) id }
    ensures block { IfSome result (λ b. Contains blocks.now (id, b.now)) }
{
    for (name, block) in blocks {
        if *name == id {
            return Some(block);
        }
    }
    None
}

impl Depot for MemoryDepot {
    ghost use Rattle.std.specs.Prelude.{refl};
    ghost use Rattle.disk_trait.specs.DepotView.{depot_view};
    ghost use Rattle.disk_trait.specs.MemoryDepot.{CountsCall, IsNew};

    type Block = MemoryBlock;

    ghost seen = { λ d. depot_view ⟦<MemoryBlock as Block>⟧.seen ⟦<MemoryBlock as Block>⟧.tells d.retired d.faults };

    ghost known = { λ _. refl };

    fn make(&mut self, id: BlockId, bytes: &[u8], fails: &[u32]) -> Result<MemoryBlock, MakeFault>
        requires { length bytes.now ≡ PAGE_BYTES }
        ensures block { IfOk result (IsNew bytes.now fails.now) }
        ensures counts { CountsCall self.old self.new result }
    {
        let spare = self.next_spare()?;
        let body = Body::new(self.alloc, spare, bytes, fails)?;
        Ok(MemoryBlock::new(body))
    }

    /// A call of it counts as one of `make`.
    fn make_zeros(&mut self, _id: BlockId, fails: &[u32]) -> Result<MemoryBlock, MakeFault>
        ensures block { IfOk result (IsNew (replicate PAGE_BYTES 0) fails.now) }
        ensures counts { CountsCall self.old self.new result }
    {
        let spare = self.next_spare()?;
        let body = Body::zeros(self.alloc, spare, fails)?;
        Ok(MemoryBlock::new(body))
    }

    fn retire(&mut self, id: BlockId, block: MemoryBlock) -> Result<(), NoMemory>
        ensures ok { OnOk result (self.new ≡ record self.old { retired = self.old.retired ++ (id, block) ∷ [] }) }
        ensures err { OnErr result (self.new ≡ self.old) }
    {
        self.retired.push((id, block))?;
        Ok(())
    }

    /// Where it has taken nothing back so far, it takes the list as it is, without memory for it.
    fn retire_all(&mut self, mut blocks: Vec<(BlockId, MemoryBlock)>) -> Result<(), NoMemory>
        ensures ok { OnOk result (self.new ≡ record self.old { retired = self.old.retired ++ blocks.items }) }
        ensures err { OnErr result ((self.new ≡ self.old) × (0 < length blocks.items)) }
    {
        if self.retired.is_empty() {
            self.retired = blocks;
            return Ok(());
        }
        self.retired.append(&mut blocks)?;
        Ok(())
    }
}
