ghost use Rattle.std.specs.Prelude.{◌≡◌, ◌<◌, ◌+◌, false, None, Some, [], ◌∷◌, ◌++◌, length, slice_get, slice_set};
ghost use Rattle.page_lists.specs.Lists.{without};
ghost use Rattle.pfn_database.specs.Rows.{FitsSlotIndex, counted_references, uncounted};
ghost use Rattle.pfn_database.specs.Frames.{row_of, IsConsistent, HasRow};

use crate::entries::enter;
use pfn_database::Pfns;
use vm_types::{FrameState, Page, Pfn};

/// A read of the page into the empty frame at the head of the free list begins. The frame leaves the
/// list.
pub fn begin_read(frames: &mut Pfns, f: Pfn, page: Page)
    requires below { f.0 < length frames.old.rows }
    requires head { slice_get frames.old.free 0 ≡ Some f.0 }
    requires empty { (row_of frames.old f.0).page ≡ None }
    ensures rows { let row = row_of frames.old f.0 in
        frames.new.rows ≡ slice_set frames.old.rows f.0
        (record row {
          state = FrameState.Reading;
          page = Some page;
          modify = false;
          refs = counted_references row.shares 1 + uncounted row;
          flights = 1;
        }) }
    ensures free { frames.new.free ≡ without frames.old.free f.0 }
    ensures modified { frames.new.modified ≡ frames.old.modified }
    ensures consistent { IsConsistent frames.new }
{
    prove!(frames.row(f).flights == 0);
    frames.set_reading(f, page);
    frames.begin_flight(f);
}

/// A read of the frame has ended, and an entry is valid for its page. The slot is the ring slot, 0
/// for a shared page.
#[inline(always)]
pub fn end_read(frames: &mut Pfns, f: Pfn, page: Page, slot: u32, modify: bool)
    requires below { f.0 < length frames.old.rows }
    requires reading { (row_of frames.old f.0).state ≡ FrameState.Reading }
    requires flights { (row_of frames.old f.0).flights ≡ 1 }
    requires page { (row_of frames.old f.0).page ≡ Some page }
    requires slot { FitsSlotIndex (Some page) slot }
    ensures rows { let row = row_of frames.old f.0 in
        frames.new.rows ≡ slice_set frames.old.rows f.0
        (record row {
          state = FrameState.Active;
          modify = modify;
          refs = counted_references (row.shares + 1) 0 + uncounted row;
          shares = row.shares + 1;
          slot = slot;
          flights = 0;
        }) }
    ensures free { frames.new.free ≡ frames.old.free }
    ensures modified { frames.new.modified ≡ frames.old.modified }
    ensures consistent { IsConsistent frames.new }
{
    frames.end_flight(f);
    enter(frames, f, page, slot, modify);
}

/// A read of the frame has ended, and no entry is valid for its page: the frame goes onto the tail of
/// the free list.
pub fn end_read_free(frames: &mut Pfns, f: Pfn)
    requires below { f.0 < length frames.old.rows }
    requires reading { (row_of frames.old f.0).state ≡ FrameState.Reading }
    requires flights { (row_of frames.old f.0).flights ≡ 1 }
    ensures rows { let row = row_of frames.old f.0 in
        frames.new.rows ≡ slice_set frames.old.rows f.0
        (record row {
          state = FrameState.Free;
          refs = counted_references row.shares 0 + uncounted row;
          slot = 0;
          flights = 0;
        }) }
    ensures free { frames.new.free ≡ frames.old.free ++ f.0 ∷ [] }
    ensures modified { frames.new.modified ≡ frames.old.modified }
    ensures consistent { IsConsistent frames.new }
{
    frames.end_flight(f);
    frames.settle(f);
}

/// A read of the frame has failed: the frame is in read error, and keeps its page.
pub fn fail_read(frames: &mut Pfns, f: Pfn)
    requires below { f.0 < length frames.old.rows }
    requires reading { (row_of frames.old f.0).state ≡ FrameState.Reading }
    requires flights { (row_of frames.old f.0).flights ≡ 1 }
    ensures { let row = row_of frames.old f.0 in
        HasRow frames.old frames.new f.0
        (record row {
          state = FrameState.ReadError;
          refs = counted_references row.shares 0 + uncounted row;
          flights = 0;
        }) }
{
    frames.end_flight(f);
    frames.set_error(f);
}
