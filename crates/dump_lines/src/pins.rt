//! The pinned slots of a process.

ghost use Rattle.std.specs.Prelude.{◌≡◌, ℕ, ◌<◌, All, IfSome, count_by, length, map, if◌then◌else◌};
ghost use Rattle.dump_bytes.specs.Bounds.{Ascends};
ghost use Rattle.dump_lines.specs.Found.{is_frame};
ghost use Rattle.dump_lines.specs.Pins.{has_entry, is_pin};
ghost use Rattle.dump_lines.specs.Raised.{AreRaised, HaveRoom};
ghost use Rattle.dump_lines.specs.WordFrame as bits;

use crate::counting::{frame_of, raise};
use dump_bytes::SlotRec;

/// The frame of a page by its valid entry. The entries ascend by page number.
fn frame_at(words: &[(u32, u32)], vpn: u32) -> Option<u32>
    requires { Ascends (map (λ w. w.0) words.now) }
    ensures found { (f : ℕ) → has_entry words.now vpn f ≡ is_frame f result }
    ensures there { (n : ℕ) → All (λ w. bits.frame_of w.1 < n) words.now → IfSome result (λ f. f < n) }
{
    match words.binary_search_by_key(&vpn, |w| w.0) {
        Ok(at) => Some(frame_of(words[at].1)),
        Err(_) => None,
    }
}

/// Adds one to the count of the frame that a slot holds, if it is pinned and its page has a valid entry.
fn count_pin(slot: SlotRec, words: &[(u32, u32)], counts: &mut [u32])
    requires ascends { Ascends (map (λ w. w.0) words.now) }
    requires there { All (λ w. bits.frame_of w.1 < length counts.old) words.now }
    requires room { HaveRoom 1 counts.old }
    ensures { AreRaised (λ f. if is_pin words.now f slot then 1 else 0) counts.old counts.new }
{
    if !slot.pinned {
        return;
    }
    if let Some(frame) = frame_at(words, slot.vpn) {
        raise(counts, frame);
    }
}

/// Adds to each frame's count how many of the slots are pinned and hold it, by these valid entries.
pub(crate) fn count_pins(slots: &[SlotRec], words: &[(u32, u32)], counts: &mut [u32])
    requires ascends { Ascends (map (λ w. w.0) words.now) }
    requires there { All (λ w. bits.frame_of w.1 < length counts.old) words.now }
    requires room { HaveRoom (length slots.now) counts.old }
    ensures { AreRaised (λ f. count_by (is_pin words.now f) slots.now) counts.old counts.new }
{
    for slot in slots {
        count_pin(*slot, words, counts);
    }
}
