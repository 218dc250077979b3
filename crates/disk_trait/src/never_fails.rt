ghost use Rattle.std.specs.Prelude.{◌≡◌, ◌<◌, [], ◌∷◌, ◌++◌, OnErr, OnOk, length};

use crate::block::Block;
use crate::depot::{Depot, MakeFault};
use crate::plain_block::PlainBlock;
use std::alloc::Global;
use std::marker::Model;
use vm_types::{BlockId, NoMemory};

/// A depot in memory that never fails, and makes blocks that never fail.
#[derive(Drop)]
pub struct NeverFails {
    alloc: Global,
    retired: Vec<(BlockId, PlainBlock)>,
}

impl Model for NeverFails {
    ghost use Rattle.std.specs.Prelude.{List};
    ghost use Rattle.vm_types.specs.declared.names.BlockId.{BlockId};
    ghost use Rattle.disk_trait.specs.declared.plain_block.PlainBlock.{PlainBlock};

    ghost Value = { List (BlockId × PlainBlock) };

    ghost view = { λ d. d.retired.items };
}

impl NeverFails {
    /// A depot that has taken nothing back. Takes no memory.
    pub fn new(alloc: Global) -> NeverFails
        ensures { result ≡ [] }
    {
        NeverFails {
            alloc,
            retired: Vec::new(alloc),
        }
    }
}

impl Depot for NeverFails {
    ghost use Rattle.std.specs.Prelude.{refl};
    ghost use Rattle.disk_trait.specs.DepotView.{depot_view};

    type Block = PlainBlock;

    ghost seen = { λ d. depot_view ⟦<PlainBlock as Block>⟧.seen ⟦<PlainBlock as Block>⟧.tells d 0 };

    ghost known = { λ _. refl };

    fn make(
        &mut self,
        _id: BlockId,
        bytes: &[u8],
        _fails: &[u32],
    ) -> Result<PlainBlock, MakeFault> {
        Ok(PlainBlock::new(self.alloc, bytes)?)
    }

    fn retire(&mut self, id: BlockId, block: PlainBlock) -> Result<(), NoMemory> {
        self.retired.push((id, block))?;
        Ok(())
    }

    fn retire_all(&mut self, mut blocks: Vec<(BlockId, PlainBlock)>) -> Result<(), NoMemory>
        ensures ok { OnOk result (self.new ≡ self.old ++ blocks.items) }
        ensures err { OnErr result ((self.new ≡ self.old) × (0 < length blocks.items)) }
    {
        self.retired.append(&mut blocks)?;
        Ok(())
    }
}
