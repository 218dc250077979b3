ghost use Rattle.std.specs.Prelude.{◌≡◌, ◌<◌, ◌+◌, ◌==◌, ◌&&◌, ◌||◌, false, not, if◌then◌else◌, [], ◌∷◌, length, slice_set};
ghost use Rattle.page_lists.specs.Lists.{without};
ghost use Rattle.pfn_database.specs.Rows.{IsOneOf, counted_references, uncounted, state_in_transfer};
ghost use Rattle.pfn_database.specs.Frames.{row_of, IsConsistent};
ghost use Rattle.pager_model.specs.Changes.{pushed_if, settled_to};

use pfn_database::Pfns;
use vm_types::{FrameState, Pfn};

/// A write of a modified or active frame begins. Its modify mark is cleared; a modified frame leaves
/// its list and is writing, an active one stays active.
pub fn begin_write(frames: &mut Pfns, f: Pfn)
    requires below { f.0 < length frames.old.rows }
    requires state { let state = (row_of frames.old f.0).state in
        IsOneOf (FrameState.Modified ∷ FrameState.Active ∷ []) state }
    requires flights { (row_of frames.old f.0).flights ≡ 0 }
    ensures rows { let row = row_of frames.old f.0 in
        frames.new.rows ≡ slice_set frames.old.rows f.0
        (record row {
          state = state_in_transfer row.state;
          modify = false;
          refs = counted_references row.shares 1 + uncounted row;
          flights = 1;
        }) }
    ensures free { frames.new.free ≡ frames.old.free }
    ensures modified { frames.new.modified ≡ without frames.old.modified f.0 }
    ensures consistent { IsConsistent frames.new }
{
    frames.begin_flight(f);
}

/// A write of the frame has ended. If it has failed the modify mark is set. A frame for which no
/// entry is valid goes onto the tail of the modified list where its mark is set, else onto the tail
/// of the free list; every other one stays active.
#[inline(always)]
pub fn end_write(frames: &mut Pfns, f: Pfn, failed: bool)
    requires below { f.0 < length frames.old.rows }
    requires state { let state = (row_of frames.old f.0).state in
        IsOneOf (FrameState.Active ∷ FrameState.Writing ∷ FrameState.ReleasePending ∷ []) state }
    requires flights { (row_of frames.old f.0).flights ≡ 1 }
    ensures rows { let row = row_of frames.old f.0 in
        let modify = failed || row.modify in
        let is_unshared = row.shares == 0 in
        frames.new.rows ≡ slice_set frames.old.rows f.0
        (record row {
          state = if is_unshared then settled_to modify else row.state;
          modify = modify;
          refs = counted_references row.shares 0 + uncounted row;
          slot = if is_unshared then 0 else row.slot;
          flights = 0;
        }) }
    ensures free { let row = row_of frames.old f.0 in
        frames.new.free ≡ pushed_if
        ((row.shares == 0) && not (failed || row.modify)) frames.old.free f.0 }
    ensures modified { let row = row_of frames.old f.0 in
        frames.new.modified ≡ pushed_if
        ((row.shares == 0) && (failed || row.modify)) frames.old.modified f.0 }
    ensures consistent { IsConsistent frames.new }
{
    let row = frames.row(f);
    frames.mark(f, failed || row.modify);
    frames.end_flight(f);
    if row.shares == 0 {
        frames.settle(f);
    }
}
