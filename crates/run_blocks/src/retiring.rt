ghost use Rattle.std.specs.Prelude.{◌≡◌, ℕ, ◌≤◌, ◌<◌, ◌++◌, OnErr, OnOk, length, map, take};
ghost use Rattle.disk_trait.specs.DepotView.{given_back};

use disk_trait::{Block, Depot};
use vm_types::{BlockId, NoMemory};

/// Gives blocks back to a depot, in their order.
///
/// # Errors
/// `NoMemory` if out of memory. The depot has then taken back a prefix of the blocks, and the others are
/// dropped.
pub fn retire_blocks<D: Depot>(
    blocks: Vec<(BlockId, D::Block)>,
    depot: &mut D,
) -> Result<(), NoMemory>
    ensures ok { OnOk result ((D.seen depot.new).retired ≡ (D.seen depot.old).retired ++ map (given_back D.Block.seen) blocks.items) }
    ensures err { OnErr result ((n : ℕ) × (n < length blocks.items) × ((D.seen depot.new).retired ≡ (D.seen depot.old).retired ++ map (given_back D.Block.seen) (take n blocks.items))) }
    ensures later { (D.seen depot.old).failures ≤ (D.seen depot.new).failures }
{
    depot.retire_all(blocks)
}
