ghost use Rattle.std.specs.Prelude.{◌≡◌, ◌+◌, ◌-◌, ◌<◌, ◌≤◌, [], map, take, length, vec_len, vec_capacity, slice_index, All};
ghost use Rattle.vm_types.specs.declared.limits.TheConstants.{MOST_EXTENT, MOST_FRAMES};
ghost use Rattle.dump_bytes.specs.Answers.{Gives};
ghost use Rattle.dump_bytes.specs.Dumped.{process_of};
ghost use Rattle.dump_bytes.specs.Reading.{items_at, rising_at, number_at, frame_at, slot_at, entry_at, process_at, rising_number_at};
ghost use Rattle.dump_bytes.specs.Room.{HasRoom};

use crate::dump::{FrameRec, ProcRec, SlotRec};
use crate::left::Left;
use crate::reading::{byte_below, number_in, zeros_in};
use crate::rows::{entry_in, frame_in, slot_in};
use vm_types::MOST_EXTENT;

/// The rows of so many frames.
pub(crate) fn frames_in<'a>(
    bytes: &'a [u8],
    count: u32,
    procs: u32,
    frames: &mut Vec<FrameRec>,
) -> Result<&'a [u8], Left>
    requires some { 0 < procs }
    requires empty { frames.old.items ≡ [] }
    requires room { count ≤ vec_capacity frames.old }
    ensures { Gives (λ rest. (frames.new.items, rest.now)) result (items_at count (frame_at procs) bytes.now) }
{
    let mut rest = bytes;
    while frames.len() < count as usize {
        let (frame, after) = frame_in(rest, procs)?;
        frames.push(frame).unwrap();
        rest = after;
    }
    Ok(rest)
}

/// So many numbers, each at most the highest.
pub(crate) fn numbers_in<'a>(
    bytes: &'a [u8],
    count: u32,
    highest: u32,
    numbers: &mut Vec<u32>,
) -> Result<&'a [u8], Left>
    requires empty { numbers.old.items ≡ [] }
    requires room { count ≤ vec_capacity numbers.old }
    ensures { Gives (λ rest. (numbers.new.items, rest.now)) result (items_at count (number_at 4 0 highest) bytes.now) }
{
    let mut rest = bytes;
    while numbers.len() < count as usize {
        let (number, after) = number_in(rest, 0, highest)?;
        numbers.push(number).unwrap();
        rest = after;
    }
    Ok(rest)
}

/// So many ascending numbers below the ceiling.
pub(crate) fn rising_in<'a>(
    bytes: &'a [u8],
    count: u32,
    ceiling: u32,
    numbers: &mut Vec<u32>,
) -> Result<&'a [u8], Left>
    requires few { count ≤ ceiling }
    requires empty { numbers.old.items ≡ [] }
    requires room { count ≤ vec_capacity numbers.old }
    ensures { Gives (λ rest. (numbers.new.items, rest.now)) result (rising_at (λ x. x) count 0 ceiling rising_number_at bytes.now) }
{
    let mut rest = bytes;
    let mut floor = 0;
    while numbers.len() < count as usize {
        // Each number leaves room for those after it.
        let others = count - numbers.len() as u32 - 1;
        let (number, after) = number_in(rest, floor, ceiling - others - 1)?;
        numbers.push(number).unwrap();
        floor = number + 1;
        rest = after;
    }
    Ok(rest)
}

/// So many slots of a working set list.
fn slots_in<'a>(bytes: &'a [u8], count: u32, slots: &mut Vec<SlotRec>) -> Result<&'a [u8], Left>
    requires empty { slots.old.items ≡ [] }
    requires room { count ≤ vec_capacity slots.old }
    ensures { Gives (λ rest. (slots.new.items, rest.now)) result (items_at count slot_at bytes.now) }
{
    let mut rest = bytes;
    while slots.len() < count as usize {
        let (slot, after) = slot_in(rest)?;
        slots.push(slot).unwrap();
        rest = after;
    }
    Ok(rest)
}

/// So many valid entries with ascending page numbers, if there are so many frames.
fn entries_in<'a>(
    bytes: &'a [u8],
    count: u32,
    frames: u32,
    words: &mut Vec<(u32, u32)>,
) -> Result<&'a [u8], Left>
    requires some { 0 < frames }
    requires few_frames { frames ≤ MOST_FRAMES }
    requires few { count ≤ MOST_EXTENT }
    requires empty { words.old.items ≡ [] }
    requires room { count ≤ vec_capacity words.old }
    ensures { Gives (λ rest. (words.new.items, rest.now)) result
        (rising_at (λ w. w.0) count 0 4194304 (entry_at frames) bytes.now) }
{
    let mut rest = bytes;
    let mut floor = 0;
    while words.len() < count as usize {
        // Each page number leaves room for those after it.
        let others = count - words.len() as u32 - 1;
        let (entry, after) = entry_in(rest, frames, floor, 0x40_0000 - others)?;
        words.push(entry).unwrap();
        floor = entry.0 + 1;
        rest = after;
    }
    Ok(rest)
}

/// A process, if there are so many frames.
fn process_in<'a>(bytes: &'a [u8], frames: u32, proc: &mut ProcRec) -> Result<&'a [u8], Left>
    requires some { 0 < frames }
    requires few { frames ≤ MOST_FRAMES }
    requires room { HasRoom proc.old }
    ensures { Gives (λ rest. (process_of proc.new, rest.now)) result (process_at frames bytes.now) }
{
    let (status, rest) = byte_below(bytes, 4)?;
    let rest = zeros_in(rest)?;
    let (slots, rest) = number_in(rest, 1, MOST_EXTENT)?;
    let (hand, rest) = number_in(rest, 0, slots - 1)?;
    let (limit, rest) = number_in(rest, 0, u32::MAX)?;
    proc.status = status;
    proc.hand = hand;
    proc.limit = limit;
    let rest = slots_in(rest, slots, &mut proc.slots)?;
    let (words, rest) = number_in(rest, 0, slots)?;
    entries_in(rest, words, frames, &mut proc.words)
}

/// So many processes, if there are so many frames; the rest of the list is left out.
pub(crate) fn processes_in<'a>(
    bytes: &'a [u8],
    count: u32,
    frames: u32,
    procs: &mut Vec<ProcRec>,
) -> Result<&'a [u8], Left>
    requires some { 0 < frames }
    requires few { frames ≤ MOST_FRAMES }
    requires there { count ≤ length procs.old.items }
    requires room { All HasRoom procs.old.items }
    ensures { Gives (λ rest. (map process_of procs.new.items, rest.now)) result
        (items_at count (process_at frames) bytes.now) }
{
    let mut rest = bytes;
    for i in 0..count as usize {
        rest = process_in(rest, frames, &mut procs[i])?;
    }
    procs.truncate(count as usize);
    Ok(rest)
}
