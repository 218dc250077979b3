ghost use Rattle.std.specs.Prelude.{◌≡◌, ◌<◌, ◌+◌, ◌-◌, ◌^◌, if◌then◌else◌, true, false, length, slice_set};
ghost use Rattle.pfn_database.specs.Rows.{uncounted};
ghost use Rattle.pfn_database.specs.Frames.{row_of, IsConsistent};

use pfn_database::Pfns;
use vm_types::Pfn;

/// A frame has one pin more, or one less: it has one reference more, or one less, for that.
pub fn count_pin(frames: &mut Pfns, f: Pfn, pin: bool)
    requires below { f.0 < length frames.old.rows }
    requires room { pin ≡ true → (row_of frames.old f.0).refs < 2 ^ 31 }
    requires some { pin ≡ false → 0 < uncounted (row_of frames.old f.0) }
    ensures rows { let row = row_of frames.old f.0 in
        frames.new.rows ≡ slice_set frames.old.rows f.0
        (record row { refs = if pin then row.refs + 1 else row.refs - 1 }) }
    ensures free { frames.new.free ≡ frames.old.free }
    ensures modified { frames.new.modified ≡ frames.old.modified }
    ensures consistent { IsConsistent frames.new }
{
    if pin {
        frames.hold(f);
    } else {
        frames.unhold(f);
    }
}
