ghost use Rattle.std.specs.Prelude.{◌≡◌, ◌+◌, ◌*◌, ◌-◌, ◌<◌, ◌≤◌, ◌==◌, if◌then◌else◌, IfOk};
ghost use Rattle.vm_types.specs.declared.limits.TheConstants.{MOST_FRAMES};
ghost use Rattle.dump_bytes.specs.Answers.{Gives};
ghost use Rattle.dump_bytes.specs.Reading.{byte_at, is_slot_code, is_word_head, slot_from, page_from};
ghost use Rattle.dump_bytes.specs.Reading as reading;

use crate::dump::{FrameRec, SlotRec};
use crate::left::Left;
use crate::reading::{byte_below, byte_exactly, number_in, three_in, zeros_in};
use vm_types::{Page, Proc, SecId};

/// The highest number of a page's process or section, by the page's kind.
fn owner_high(procs: u32, kind: u8) -> u32
    requires { 0 < procs }
    ensures { result ≡ reading.owner_high procs kind }
{
    match kind {
        0 => 0,
        1 => procs - 1,
        _ => 63,
    }
}

/// The highest page number, by the page's kind.
fn page_high(kind: u8) -> u32
    ensures { result ≡ reading.page_high kind }
{
    match kind {
        0 => 0,
        1 => 0x3f_ffff,
        _ => 0x3fff,
    }
}

/// The page of a kind, an owner and a number.
fn page_of(kind: u8, owner: u32, number: u32) -> Option<Page>
    ensures { result ≡ page_from kind owner number }
{
    match kind {
        0 => None,
        1 => Some(Page::Private(Proc(owner), number)),
        _ => Some(Page::Shared(SecId(owner), number)),
    }
}

/// The row of a frame, if there are so many processes.
pub(crate) fn frame_in(bytes: &[u8], procs: u32) -> Result<(FrameRec, &[u8]), Left>
    requires { 0 < procs }
    ensures { Gives (λ x. (x.0, x.1.now)) result (reading.frame_at procs bytes.now) }
{
    let (state, rest) = byte_below(bytes, 8)?;
    let (modify, rest) = byte_below(rest, 2)?;
    let (kind, rest) = byte_below(rest, 3)?;
    let rest = byte_exactly(rest, 0)?;
    let (owner, rest) = number_in(rest, 0, owner_high(procs, kind))?;
    let (number, rest) = number_in(rest, 0, page_high(kind))?;
    let (refs, rest) = number_in(rest, 0, u32::MAX)?;
    let (shares, rest) = number_in(rest, 0, u32::MAX)?;
    let page = page_of(kind, owner, number);
    let frame = FrameRec {
        state,
        modify: modify == 1,
        page,
        refs,
        shares,
    };
    Ok((frame, rest))
}

/// The code of a slot.
fn slot_code_in(bytes: &[u8]) -> Result<(u8, &[u8]), Left>
    ensures { Gives (λ x. (x.0, x.1.now)) result (byte_at is_slot_code bytes.now) }
{
    match bytes {
        [] => Err(Left(0)),
        [byte, rest @ ..] => {
            let code = *byte;
            if code == 0 || code == 1 || code == 3 || code == 5 || code == 7 {
                Ok((code, rest))
            } else {
                Err(Left(bytes.len()))
            }
        }
    }
}

/// The slot of a code and a page number.
fn slot_of(code: u8, vpn: u32) -> SlotRec
    ensures { result ≡ slot_from code vpn }
{
    SlotRec {
        filled: code > 0,
        locked: code == 3 || code == 7,
        pinned: code == 5 || code == 7,
        vpn,
    }
}

/// A slot of a working set list.
pub(crate) fn slot_in(bytes: &[u8]) -> Result<(SlotRec, &[u8]), Left>
    ensures { Gives (λ x. (x.0, x.1.now)) result (reading.slot_at bytes.now) }
{
    let (code, rest) = slot_code_in(bytes)?;
    let rest = zeros_in(rest)?;
    let highest = if code == 0 { 0 } else { 0x3f_ffff };
    let (vpn, rest) = number_in(rest, 0, highest)?;
    Ok((slot_of(code, vpn), rest))
}

/// The highest byte of a valid entry's word.
fn word_head_in(bytes: &[u8]) -> Result<(u32, &[u8]), Left>
    ensures small { IfOk result (λ x. x.0 < 256) }
    ensures read { Gives (λ x. (x.0, x.1.now)) result (byte_at is_word_head bytes.now) }
{
    match bytes {
        [] => Err(Left(0)),
        [byte, rest @ ..] => {
            let head = u32::from(*byte);
            if head >= 128 && head % 4 == 0 && head / 8 % 16 != 1 {
                Ok((head, rest))
            } else {
                Err(Left(bytes.len()))
            }
        }
    }
}

/// The word of a valid entry, if there are so many frames.
fn word_in(bytes: &[u8], frames: u32) -> Result<(u32, &[u8]), Left>
    requires some { 0 < frames }
    requires few { frames ≤ MOST_FRAMES }
    ensures { Gives (λ x. (x.0, x.1.now)) result (reading.word_at frames bytes.now) }
{
    let (head, rest) = word_head_in(bytes)?;
    let (frame, rest) = three_in(rest, frames - 1)?;
    Ok((head * 0x100_0000 + frame, rest))
}

/// A valid entry, if there are so many frames: its page number, from low on and below high, and its
/// word.
pub(crate) fn entry_in(
    bytes: &[u8],
    frames: u32,
    low: u32,
    high: u32,
) -> Result<((u32, u32), &[u8]), Left>
    requires some { 0 < frames }
    requires few { frames ≤ MOST_FRAMES }
    requires between { low < high }
    ensures below { IfOk result (λ x. x.0.0 < high) }
    ensures read { Gives (λ x. (x.0, x.1.now)) result (reading.entry_at frames low high bytes.now) }
{
    let (vpn, rest) = number_in(bytes, low, high - 1)?;
    let (word, rest) = word_in(rest, frames)?;
    Ok(((vpn, word), rest))
}
