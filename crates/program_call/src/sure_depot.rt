ghost use Rattle.std.specs.Prelude.{◌≡◌, ◌<◌, ◌++◌, [], OnErr, OnOk, length};
ghost use Rattle.program_call.specs.ProgramTells.{memory_view};

use crate::sure_block::SureBlock;
use disk_trait::{Block, Depot, MakeFault};
use std::alloc::Global;
use vm_types::{BlockId, NoMemory};

/// A depot in memory that never fails: a block is not made only for want of memory. The bytes and the
/// plans of its blocks are known, and they fail exactly at the calls that they are made to fail at. Each
/// has memory of its own, so that nothing is left when the depot is dropped.
#[derive(Drop)]
pub(crate) struct SureDepot {
    alloc: Global,
    retired: Vec<(BlockId, SureBlock)>,
}

impl SureDepot {
    /// A depot that has taken nothing back. Doesn't allocate.
    pub(crate) fn new(alloc: Global) -> SureDepot
        ensures { ⟦<SureDepot as Depot>⟧.seen result ≡ memory_view [] }
    {
        SureDepot {
            alloc,
            retired: Vec::new(alloc),
        }
    }
}

impl Depot for SureDepot {
    ghost use Rattle.std.specs.Prelude.{refl};
    ghost use Rattle.disk_trait.specs.DepotView.{depot_view};

    type Block = SureBlock;

    ghost seen = { λ d. depot_view ⟦<SureBlock as Block>⟧.seen ⟦<SureBlock as Block>⟧.tells d.retired.items 0 };

    ghost known = { λ _. refl };

    fn make(&mut self, _id: BlockId, bytes: &[u8], fails: &[u32]) -> Result<SureBlock, MakeFault> {
        Ok(SureBlock::new(self.alloc, bytes, fails)?)
    }

    fn retire(&mut self, id: BlockId, block: SureBlock) -> Result<(), NoMemory> {
        self.retired.push((id, block))?;
        Ok(())
    }

    fn retire_all(&mut self, mut blocks: Vec<(BlockId, SureBlock)>) -> Result<(), NoMemory>
        ensures ok { OnOk result (self.new.retired.items ≡ self.old.retired.items ++ blocks.items) }
        ensures err { OnErr result ((self.new.retired.items ≡ self.old.retired.items) × (0 < length blocks.items)) }
    {
        if self.retired.is_empty() {
            self.retired = blocks;
            return Ok(());
        }
        self.retired.append(&mut blocks)?;
        Ok(())
    }
}
