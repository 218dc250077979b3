ghost use Rattle.std.specs.Prelude.{◌≡◌, ◌<◌, None, Some, length, true};
ghost use Rattle.vm_types.specs.Configuration.{IsBlock, IsWellFormed};
ghost use Rattle.vm_types.specs.declared.names.BlockId.{BlockId};
ghost use Rattle.pager_model.specs.Lookups.{block_of};
ghost use Rattle.pager_model.specs.Maps.{is_paged};
ghost use Rattle.pager_policy.specs.WriteCluster.{block_out, is_free_block, new_block};
ghost use Rattle.vm_state.specs.History.{pager};
ghost use Rattle.vm_state.specs.PageReadings.{IsKnown};

use disk_trait::Block;
use state_pages::is_paged;
use vm_state::State;
use vm_types::{BlockId, Page, if_next};

/// Whether a block of the page file exists and is free.
fn is_free_block<B: Block>(state: &State<B>, n: u32) -> bool
    ensures { result ≡ is_free_block state.now.config (pager state.now) n }
{
    n < state.config().pagefile && state.owner(n).is_none()
}

/// The block that a page without one takes: the lowest free block if there is no last block, else the
/// one after a last block of the page file, if it exists and is free.
fn new_block<B: Block>(state: &State<B>, last: Option<BlockId>) -> Option<BlockId>
    requires formed { IsWellFormed state.now.config }
    requires last { (b : BlockId) → last ≡ Some b → IsBlock state.now.config b }
    requires room { length (pager state.now).assigned < length (pager state.now).charged }
    ensures { result ≡ new_block state.now.config (pager state.now) last }
{
    match last {
        Some(b) => match b {
            BlockId::Section(..) => None,
            BlockId::PageFile(n) => {
                if is_free_block(state, n + 1) {
                    Some(BlockId::PageFile(n + 1))
                } else {
                    None
                }
            }
            BlockId::Swap(..) => None,
        },
        None => Some(BlockId::PageFile(state.lowest())),
    }
}

/// The block to which a page of the modified list is written behind the last block of a cluster; none if
/// it doesn't adjoin that one.
pub fn block_out<B: Block>(state: &State<B>, last: Option<BlockId>, page: Page) -> Option<BlockId>
    requires formed { IsWellFormed state.now.config }
    requires last { (b : BlockId) → last ≡ Some b → IsBlock state.now.config b }
    requires known { IsKnown state.now.config page }
    requires room { is_paged state.now.config page ≡ true → block_of (pager state.now).assigned page ≡ None
        → length (pager state.now).assigned < length (pager state.now).charged }
    ensures { result ≡ block_out state.now.config (pager state.now) last (Some page) }
{
    let backing = state.backing(page);
    if is_paged(state.config(), page) {
        match backing.assigned {
            Some(n) => if_next(last, BlockId::PageFile(n)),
            None => new_block(state, last),
        }
    } else {
        match backing.lies {
            Some(b) => if_next(last, b),
            None => None,
        }
    }
}
