//! Counts by frame.

ghost use Rattle.std.specs.Prelude.{◌≡◌, ◌+◌, ◌<◌, ◌^◌, All, count_by, length, nat_eq, slice_index, if◌then◌else◌};
ghost use Rattle.dump_lines.specs.Occurrences.{times_in};
ghost use Rattle.dump_lines.specs.Raised.{AreRaised, HaveRoom};
ghost use Rattle.dump_lines.specs.Shares.{is_for};
ghost use Rattle.dump_lines.specs.WordFrame as bits;

/// The frame of a valid entry's word.
pub(crate) fn frame_of(word: u32) -> u32
    ensures { result ≡ bits.frame_of word }
{
    word % 0x20_0000
}

/// Adds one to the count of a frame.
pub(crate) fn raise(counts: &mut [u32], frame: u32)
    requires there { frame < length counts.old }
    requires room { slice_index counts.old frame + 1 < 2 ^ 32 }
    ensures { AreRaised (λ f. if nat_eq frame f then 1 else 0) counts.old counts.new }
{
    counts[frame as usize] += 1;
}

/// Adds to each frame's count how often it is in a list.
pub(crate) fn count_members(members: &[u32], counts: &mut [u32])
    requires there { All (λ f. f < length counts.old) members.now }
    requires room { HaveRoom (length members.now) counts.old }
    ensures { AreRaised (times_in members.now) counts.old counts.new }
{
    for frame in members {
        raise(counts, *frame);
    }
}

/// Adds to each frame's count how many of these valid entries are for it.
pub(crate) fn count_entries(words: &[(u32, u32)], counts: &mut [u32])
    requires there { All (λ w. bits.frame_of w.1 < length counts.old) words.now }
    requires room { HaveRoom (length words.now) counts.old }
    ensures { AreRaised (λ f. count_by (is_for f) words.now) counts.old counts.new }
{
    for entry in words {
        raise(counts, frame_of(entry.1));
    }
}
