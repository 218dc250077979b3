ghost use Rattle.std.specs.Prelude.{◌≡◌, ℕ, ◌+◌, ◌<◌, ◌≤◌, [], ◌∷◌, ◌++◌, length, map, replicate, take, OnOk, OnErr, IfOk, IsErrOf};
ghost use Rattle.vm_types.specs.declared.limits.TheConstants.{PAGE_BYTES};
ghost use Rattle.vm_types.specs.Counts.{Rose};
ghost use Rattle.disk_trait.specs.DepotView.{DepotView, given_back};
ghost use Rattle.disk_trait.specs.Told.{told};

use crate::block::Block;
use std::alloc::AllocError;
use vm_types::{BlockId, NoMemory};

/// What a block of zeros has.
const ZEROS: [u8; 512] = [0; 512];

/// Why a block could not be made.
#[derive(Clone, Copy, Debug, PartialEq, Eq)]
pub enum MakeFault {
    /// Memory ran out.
    NoMemory,
    /// The depot failed; its count of faults says so.
    Failed,
}

impl From<NoMemory> for MakeFault {
    ghost use Rattle.disk_trait.specs.declared.depot.MakeFault.{MakeFault};

    ghost from_gives = { λ _ fault. fault ≡ MakeFault.NoMemory };

    fn from(_error: NoMemory) -> MakeFault {
        MakeFault::NoMemory
    }
}

impl From<AllocError> for MakeFault {
    ghost use Rattle.disk_trait.specs.declared.depot.MakeFault.{MakeFault};

    ghost from_gives = { λ _ fault. fault ≡ MakeFault.NoMemory };

    fn from(_error: AllocError) -> MakeFault {
        MakeFault::NoMemory
    }
}

/// A place that makes blocks, and takes them back when they are done with.
pub trait Depot {
    type Block: Block;

    /// What is seen of it: whether its blocks' bytes and plans are known, the blocks that were taken back,
    /// with their names, the first one first, and how often it has failed.
    ghost seen: { Self → DepotView };

    /// Makes a block with this name and these 512 bytes, which is to fail at its calls `fails`,
    /// reads and writes counted together from 1.
    ///
    /// # Errors
    /// `NoMemory` for want of memory, `Failed` where the depot failed.
    fn make(&mut self, id: BlockId, bytes: &[u8], fails: &[u32]) -> Result<Self::Block, MakeFault>
        requires { length bytes.now ≡ PAGE_BYTES }
        ensures content { IfOk result (λ b. (Self.Block.seen b).content ≡ told Self.Block.tells.content bytes.now) }
        ensures plan { IfOk result (λ b. (Self.Block.seen b).plan ≡ told Self.Block.tells.plan fails.now) }
        ensures reads { IfOk result (λ b. (Self.Block.seen b).reads ≡ 0) }
        ensures writes { IfOk result (λ b. (Self.Block.seen b).writes ≡ 0) }
        ensures faults { IfOk result (λ b. (Self.Block.seen b).faults ≡ 0) }
        ensures retired { (seen self.new).retired ≡ (seen self.old).retired }
        ensures failed { IsErrOf result MakeFault.Failed → Rose (seen self.old).failures (seen self.new).failures }
        ensures later { (seen self.old).failures ≤ (seen self.new).failures };

    /// Makes a block of zeros with this name, as `make` does.
    ///
    /// # Errors
    /// `NoMemory` for want of memory, `Failed` where the depot failed.
    fn make_zeros(&mut self, id: BlockId, fails: &[u32]) -> Result<Self::Block, MakeFault>
        ensures content { IfOk result (λ b. (Self.Block.seen b).content ≡ told Self.Block.tells.content (replicate PAGE_BYTES 0)) }
        ensures plan { IfOk result (λ b. (Self.Block.seen b).plan ≡ told Self.Block.tells.plan fails.now) }
        ensures reads { IfOk result (λ b. (Self.Block.seen b).reads ≡ 0) }
        ensures writes { IfOk result (λ b. (Self.Block.seen b).writes ≡ 0) }
        ensures faults { IfOk result (λ b. (Self.Block.seen b).faults ≡ 0) }
        ensures retired { (seen self.new).retired ≡ (seen self.old).retired }
        ensures failed { IsErrOf result MakeFault.Failed → Rose (seen self.old).failures (seen self.new).failures }
        ensures later { (seen self.old).failures ≤ (seen self.new).failures }
    {
        self.make(id, &ZEROS, fails)
    }

    /// Takes a block back.
    ///
    /// # Errors
    /// `NoMemory` for want of memory. The block is then gone, and the list as before.
    fn retire(&mut self, id: BlockId, block: Self::Block) -> Result<(), NoMemory>
        ensures ok { OnOk result ((seen self.new).retired ≡ (seen self.old).retired ++ given_back Self.Block.seen (id, block) ∷ []) }
        ensures err { OnErr result ((seen self.new).retired ≡ (seen self.old).retired) }
        ensures later { (seen self.old).failures ≤ (seen self.new).failures };

    /// Takes blocks back, in their order.
    ///
    /// # Errors
    /// `NoMemory` for want of memory. The depot has then taken back a prefix of the blocks, and the
    /// others are gone.
    fn retire_all(&mut self, blocks: Vec<(BlockId, Self::Block)>) -> Result<(), NoMemory>
        ensures ok { OnOk result ((seen self.new).retired ≡ (seen self.old).retired ++ map (given_back Self.Block.seen) blocks.items) }
        ensures err { OnErr result ((n : ℕ) × (n < length blocks.items) × ((seen self.new).retired ≡ (seen self.old).retired ++ map (given_back Self.Block.seen) (take n blocks.items))) }
        ensures later { (seen self.old).failures ≤ (seen self.new).failures };

    /// What is known of its blocks is what is known of all of their type.
    ghost known: { (d : Self) → (seen d).tells ≡ Self.Block.tells };
}
