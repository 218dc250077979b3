ghost use Rattle.std.specs.Prelude.{◌≡◌, ◌+◌, ◌≤◌, Some};
ghost use Rattle.vm_types.specs.Configuration.{IsBlock, IsWellFormed};
ghost use Rattle.vm_types.specs.declared.names.BlockId.{BlockId};
ghost use Rattle.call_laws.specs.AreLegal.{AreLegal};
ghost use Rattle.call_begins.specs.Lifted.{HasLifts};
ghost use Rattle.call_begins.specs.MayBegin.{empty};
ghost use Rattle.vm_state.specs.History.{owed, pager};
ghost use Rattle.vm_state.specs.LiftsLand.{added_each};
ghost use Rattle.modified_writer.specs.Cluster.{cluster_writes};
ghost use Rattle.modified_writer.specs.NextWrite.{next_write};

use crate::blocks::block_out;
use call_begins::write_one;
use disk_trait::Block;
use page_lists::ListName;
use vm_state::{Carrier, State};
use vm_types::{BlockId, Pfn, Seat};

/// The next write behind the last block of a cluster: the modified list's head, and the block to which
/// it is written; none if the list is empty, or the head's block doesn't adjoin the last one.
fn next_write<B: Block>(state: &State<B>, last: Option<BlockId>) -> Option<(Pfn, BlockId)>
    requires last { (b : BlockId) → last ≡ Some b → IsBlock state.now.config b }
    ensures { result ≡ next_write state.now.config (pager state.now) last (pager state.now).modified }
{
    state.run_law();
    let f = state.head(ListName::Modified)?;
    let page = state.frame(f).page?;
    let block = block_out(state, last, page)?;
    Some((f, block))
}

/// Begins to write the pages from the modified list's head on, as long as their blocks adjoin: at most
/// WRTCLUSTER.
#[inline(always)]
pub fn write_cluster<B: Block>(state: &mut State<B>, seat: Seat, carrier: &mut Carrier<B>)
    requires formed { IsWellFormed state.old.config }
    requires may { AreLegal state.old.config state.old.past seat.0 (cluster_writes state.old) }
    requires paid { owed state.old.past + 64 ≤ state.old.spare }
    requires carrier { carrier.old ≡ empty seat }
    ensures made { state.new ≡ added_each seat (cluster_writes state.old) state.old }
    ensures lifts { HasLifts B.seen B.tells state.new seat (cluster_writes state.old) carrier.new }
{
    let most = state.config().params.wrtcluster;
    let mut last = None;
    for _ in 0..most {
        match next_write(state, last) {
            Some((f, block)) => {
                state.run_law();
                write_one(state, seat, f, block, carrier);
                last = Some(block);
            }
            None => return,
        }
    }
}
