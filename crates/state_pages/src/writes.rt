ghost use Rattle.std.specs.Prelude.{◌≡◌, ℕ};
ghost use Rattle.state_parts.specs.ChargedTable.{IsTableSet, kept_at};
ghost use Rattle.state_parts.specs.SwapTable.{swapped_at};
ghost use Rattle.state_fits.specs.Writes.{block_taken, given_row, landed_row, slot_emptied, slot_filled, swaps_landed, swaps_moved};
ghost use Rattle.state_pages.specs.WriteMoves.{MayEmpty, MayFill, MayGive, MayLie, MayMoveSlot};

use page_file::PageFile;
use state_parts::{ChargedPage, ChargedPages, SwapPages};
use vm_types::{BlockId, Page};

/// A write of the page to the block begins: if the block is the page file's, and the page has none yet,
/// the block is assigned to it.
#[tactic(auto, using(state_fits::proofs::PartsSet::table_same))]
pub fn give_block(pages: &mut ChargedPages, file: &mut PageFile, page: Page, block: BlockId)
    requires { MayGive pages.old file.old block page }
    ensures rows { IsTableSet pages.old pages.new page (given_row block (kept_at pages.old page)) }
    ensures file { file.new ≡ block_taken block page (kept_at pages.old page) file.old }
{
    if let BlockId::PageFile(n) = block {
        if let Some(row) = pages.at(page) {
            if row.assigned.is_none() {
                file.assign(n, page);
            }
            let assigned = Some(n);
            pages.set(page, Some(ChargedPage { assigned, ..row }));
        }
    }
}

/// A write of the page to the block has landed: the page lies in the block, if it is charged and wasn't
/// modified meanwhile, and in no other.
#[tactic(auto, using(state_fits::proofs::PartsSet::table_same))]
pub fn lie_unless(
    pages: &mut ChargedPages,
    swaps: &mut SwapPages,
    modify: bool,
    page: Page,
    block: BlockId,
)
    requires { MayLie pages.old swaps.old page block }
    ensures rows { IsTableSet pages.old pages.new page (landed_row modify block (kept_at pages.old page)) }
    ensures swaps { (q m : ℕ) → swapped_at swaps.new q m
        ≡ swaps_landed modify page block (kept_at pages.old page) (swapped_at swaps.old) q m }
    ensures swap_procs { swaps.new.procs ≡ swaps.old.procs }
{
    if !modify {
        if let Some(row) = pages.at(page) {
            move_slot(swaps, page, row.lies, block);
            let lies = Some(block);
            pages.set(page, Some(ChargedPage { lies, ..row }));
        }
    }
}

/// A private page lies in the block, and not where it lay: of swap blocks this is kept.
fn move_slot(swaps: &mut SwapPages, page: Page, lies: Option<BlockId>, block: BlockId)
    requires { MayMoveSlot swaps.old page lies block }
    ensures swaps { (q m : ℕ) → swapped_at swaps.new q m ≡ swaps_moved page block lies (swapped_at swaps.old) q m }
    ensures procs { swaps.new.procs ≡ swaps.old.procs }
{
    if let Page::Private(_, vpn) = page {
        empty_slot(swaps, lies);
        fill_slot(swaps, block, vpn);
    }
}

/// Nothing lies in a swap block that a page lay in.
fn empty_slot(swaps: &mut SwapPages, lies: Option<BlockId>)
    requires { MayEmpty swaps.old lies }
    ensures swaps { (q m : ℕ) → swapped_at swaps.new q m ≡ slot_emptied lies (swapped_at swaps.old) q m }
    ensures procs { swaps.new.procs ≡ swaps.old.procs }
{
    if let Some(BlockId::Swap(p, n)) = lies {
        swaps.set(p, n, None);
    }
}

/// The page of this number lies in the block, if it is a swap block.
fn fill_slot(swaps: &mut SwapPages, block: BlockId, vpn: u32)
    requires { MayFill swaps.old block }
    ensures swaps { (q m : ℕ) → swapped_at swaps.new q m ≡ slot_filled block vpn (swapped_at swaps.old) q m }
    ensures procs { swaps.new.procs ≡ swaps.old.procs }
{
    if let BlockId::Swap(p, n) = block {
        swaps.set(p, n, Some(vpn));
    }
}
