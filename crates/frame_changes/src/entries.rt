ghost use Rattle.std.specs.Prelude.{◌≡◌, ◌≢◌, ◌<◌, ◌+◌, ◌-◌, ◌^◌, if◌then◌else◌, true, length, IfSome, slice_set, Some};
ghost use Rattle.page_lists.specs.Lists.{without};
ghost use Rattle.pfn_database.specs.Rows.{FitsSlotIndex, counted_references, uncounted};
ghost use Rattle.pfn_database.specs.Frames.{row_of, IsConsistent};
ghost use Rattle.frame_changes.specs.Leaving.{without_entry, free_after, modified_after};

use pfn_database::{Pfns, Row};
use vm_types::{FrameState, Page, Pfn};

/// One more entry is valid for a frame that is empty or holds this page: it leaves the list that it
/// is on, if any, and is active. The slot is the ring slot, 0 for a shared page. An open transfer
/// goes on.
#[inline(always)]
pub fn enter(frames: &mut Pfns, f: Pfn, page: Page, slot: u32, modify: bool)
    requires below { f.0 < length frames.old.rows }
    requires usable { ((row_of frames.old f.0).state ≢ FrameState.Bad)
        × ((row_of frames.old f.0).state ≢ FrameState.ReadError) }
    requires page { IfSome (row_of frames.old f.0).page (λ held. held ≡ page) }
    requires slot { FitsSlotIndex (Some page) slot }
    requires shares { (row_of frames.old f.0).shares < 2 ^ 32 - 1 }
    ensures rows { let row = row_of frames.old f.0 in
        frames.new.rows ≡ slice_set frames.old.rows f.0
        (record row {
          state = FrameState.Active;
          page = Some page;
          modify = modify;
          refs = counted_references (row.shares + 1) row.flights + uncounted row;
          shares = row.shares + 1;
          slot = slot;
        }) }
    ensures free { frames.new.free ≡ without frames.old.free f.0 }
    ensures modified { frames.new.modified ≡ without frames.old.modified f.0 }
    ensures consistent { IsConsistent frames.new }
{
    frames.set_active(f, page, slot);
    frames.share(f);
    frames.mark(f, modify);
}

/// One entry less is valid for an active frame. The last one gives up the slot; the frame is then
/// release pending while a transfer is open, else it goes onto the tail of the modified list where
/// its modify mark is set, and onto the tail of the free list where it isn't. It keeps its page. If
/// the page was pinned, it has one reference less for that. The row is the frame's.
#[inline(always)]
pub fn leave(frames: &mut Pfns, f: Pfn, row: Row, pinned: bool)
    requires below { f.0 < length frames.old.rows }
    requires row { row ≡ row_of frames.old f.0 }
    requires active { (row_of frames.old f.0).state ≡ FrameState.Active }
    requires shares { 0 < (row_of frames.old f.0).shares }
    requires pins { pinned ≡ true → 0 < uncounted (row_of frames.old f.0) }
    ensures rows { let row = row_of frames.old f.0 in
        frames.new.rows ≡ slice_set frames.old.rows f.0
        (without_entry row (counted_references (row.shares - 1) row.flights + (if pinned then uncounted row - 1 else uncounted row))) }
    ensures free { frames.new.free ≡ free_after frames.old f.0 }
    ensures modified { frames.new.modified ≡ modified_after frames.old f.0 }
    ensures consistent { IsConsistent frames.new }
{
    if pinned {
        return lose_pinned(frames, f);
    }
    lose_entry(frames, f, row)
}

/// One entry less is valid for an active frame, whose page was pinned by it.
fn lose_pinned(frames: &mut Pfns, f: Pfn)
    requires below { f.0 < length frames.old.rows }
    requires active { (row_of frames.old f.0).state ≡ FrameState.Active }
    requires shares { 0 < (row_of frames.old f.0).shares }
    requires pins { 0 < uncounted (row_of frames.old f.0) }
    ensures rows { let row = row_of frames.old f.0 in
        frames.new.rows ≡ slice_set frames.old.rows f.0
        (without_entry row (counted_references (row.shares - 1) row.flights + (uncounted row - 1))) }
    ensures free { frames.new.free ≡ free_after frames.old f.0 }
    ensures modified { frames.new.modified ≡ modified_after frames.old f.0 }
    ensures consistent { IsConsistent frames.new }
{
    frames.unhold(f);
    let row = frames.row(f);
    lose_entry(frames, f, row);
}

/// One entry less is valid for an active frame, whose page isn't pinned by it.
#[inline(always)]
fn lose_entry(frames: &mut Pfns, f: Pfn, row: Row)
    requires below { f.0 < length frames.old.rows }
    requires row { row ≡ row_of frames.old f.0 }
    requires active { (row_of frames.old f.0).state ≡ FrameState.Active }
    requires shares { 0 < (row_of frames.old f.0).shares }
    ensures rows { let row = row_of frames.old f.0 in
        frames.new.rows ≡ slice_set frames.old.rows f.0
        (without_entry row (counted_references (row.shares - 1) row.flights + uncounted row)) }
    ensures free { frames.new.free ≡ free_after frames.old f.0 }
    ensures modified { frames.new.modified ≡ modified_after frames.old f.0 }
    ensures consistent { IsConsistent frames.new }
{
    frames.unshare(f);
    if row.shares == 1 && row.flights == 0 {
        frames.settle(f);
    }
}
