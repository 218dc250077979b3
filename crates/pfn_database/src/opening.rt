ghost use Rattle.std.specs.Prelude.{◌≡◌, ◌<◌, ◌^◌, [], length, All, map, filter, IfOk, replicate, slice_index_or};
ghost use Rattle.std.specs.List.{range_with_len};
ghost use Rattle.pfn_database.specs.Rows.{bad_row};
ghost use Rattle.pfn_database.specs.Frames.{is_free, opening_row};
ghost use Rattle.pfn_database.specs.Kept.{kept_of};

use crate::kept::Kept;
use page_lists::{ListName, Lists};
use std::alloc::{AllocError, Global};
use vm_types::{FrameState, Pfn};

/// A free frame that holds nothing.
pub(crate) const EMPTY: Kept = Kept {
    state: FrameState::Free,
    page: None,
    modify: false,
    refs: 0,
    flights: 0,
};

/// A bad frame.
const BAD: Kept = Kept {
    state: FrameState::Bad,
    page: None,
    modify: false,
    refs: 0,
    flights: 0,
};

/// What is kept of so many frames, of which some are bad and the others empty.
pub(crate) fn opening_frames(
    alloc: Global,
    frames: u32,
    bad: &[u32],
) -> Result<Vec<Kept>, AllocError>
    requires { All (λ b. b < frames) bad.now }
    ensures { IfOk result (λ v.
        v.items ≡ map (λ f. kept_of (opening_row bad.now f)) (range_with_len 0 frames)) }
{
    let mut kept = vec![in alloc; EMPTY; frames as usize]?;
    for frame in bad {
        kept[*frame as usize] = BAD;
    }
    Ok(kept)
}

/// Puts every free frame at the end of the free list, in number order.
pub(crate) fn list_free(kept: &Vec<Kept>, lists: &mut Lists)
    requires short { length kept.now.items < 2 ^ 32 }
    requires frames { lists.old.frames ≡ length kept.now.items }
    requires free { lists.old.free ≡ [] }
    requires modified { lists.old.modified ≡ [] }
    requires cells { lists.old.cells ≡ replicate (length kept.now.items) (0, 0) }
    ensures frames { lists.new.frames ≡ length kept.now.items }
    ensures free { let items = kept.now.items in
        lists.new.free ≡ filter (λ f. is_free (slice_index_or items f (kept_of bad_row)).state)
        (range_with_len 0 (length items)) }
    ensures modified { lists.new.modified ≡ [] }
    ensures cells { lists.new.cells ≡ replicate (length kept.now.items) (0, 0) }
{
    for frame in 0..kept.len() {
        match kept_at(kept, Pfn(frame as u32)).state {
            FrameState::Free => lists.push_tail(ListName::Free, frame as u32),
            _ => {}
        }
    }
}

/// What is kept of a frame.
pub(crate) fn kept_at(kept: &Vec<Kept>, f: Pfn) -> Kept
    requires { f.0 < length kept.now.items }
    ensures { result ≡ slice_index_or kept.now.items f.0 (kept_of bad_row) }
{
    kept[f.0 as usize]
}
