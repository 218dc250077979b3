ghost use Rattle.std.specs.Prelude.{◌≡◌, ◌^◌, ◌<◌, ◌≤◌, length, codes, IfOk, OnOk};
ghost use Rattle.byteorder.specs.Endian.{big_number};
ghost use Rattle.dump_bytes.specs.Answers.{Gives};
ghost use Rattle.dump_bytes.specs.Reading.{number_at, front_at, fronts_at, below_at, exactly_at, zeros_at, letters_at};

use crate::left::Left;
use byteorder::{BigEndian, ByteOrder};

/// A byte below the limit.
pub(crate) fn byte_below(bytes: &[u8], limit: u8) -> Result<(u8, &[u8]), Left>
    ensures small { IfOk result (λ x. x.0 < limit) }
    ensures read { Gives (λ x. (x.0, x.1.now)) result (below_at limit bytes.now) }
{
    match bytes {
        [] => Err(Left(0)),
        [byte, rest @ ..] => {
            if *byte < limit {
                Ok((*byte, rest))
            } else {
                Err(Left(bytes.len()))
            }
        }
    }
}

/// This byte; the bytes after it.
pub(crate) fn byte_exactly(bytes: &[u8], wanted: u8) -> Result<&[u8], Left>
    ensures { Gives (λ rest. (wanted, rest.now)) result (exactly_at wanted bytes.now) }
{
    match bytes {
        [] => Err(Left(0)),
        [byte, rest @ ..] => {
            if *byte == wanted {
                Ok(rest)
            } else {
                Err(Left(bytes.len()))
            }
        }
    }
}

/// Three zeros; the bytes after them.
pub(crate) fn zeros_in(bytes: &[u8]) -> Result<&[u8], Left>
    ensures { Gives (λ rest. ((0, (0, 0)), rest.now)) result (zeros_at bytes.now) }
{
    let rest = byte_exactly(bytes, 0)?;
    let rest = byte_exactly(rest, 0)?;
    byte_exactly(rest, 0)
}

/// The number that the first `width` bytes are, the highest first, is from low to high. If it isn't,
/// the last of these bytes is the one that fits nothing.
fn front_in(bytes: &[u8], width: usize, low: u32, high: u32) -> Result<(), Left>
    requires some { 0 < width }
    requires few { width ≤ 4 }
    ensures ok { OnOk result ((width ≤ length bytes.now) × (low ≤ big_number width bytes.now) × (big_number width bytes.now ≤ high)) }
    ensures read { Gives (λ _. tt) result (front_at width low high bytes.now) }
{
    if bytes.len() < width {
        return Err(Left(0));
    }
    let front = BigEndian::read_uint(bytes, width);
    if u64::from(low) <= front && front <= u64::from(high) {
        Ok(())
    } else {
        Err(Left(bytes.len() - (width - 1)))
    }
}

/// Three bytes, each one with which some number up to high goes on.
fn judge_three(bytes: &[u8], high: u32) -> Result<(), Left>
    ensures ok { OnOk result ((3 ≤ length bytes.now) × (big_number 3 bytes.now ≤ high)) }
    ensures read { Gives (λ _. tt) result (fronts_at 3 0 0 high bytes.now) }
{
    front_in(bytes, 1, 0, high / 0x1_0000)?;
    front_in(bytes, 2, 0, high / 0x100)?;
    front_in(bytes, 3, 0, high)
}

/// Four bytes, each one with which some number from low to high goes on.
fn judge_four(bytes: &[u8], low: u32, high: u32) -> Result<(), Left>
    ensures ok { OnOk result ((4 ≤ length bytes.now) × (low ≤ big_number 4 bytes.now) × (big_number 4 bytes.now ≤ high)) }
    ensures read { Gives (λ _. tt) result (fronts_at 4 0 low high bytes.now) }
{
    front_in(bytes, 1, low / 0x100_0000, high / 0x100_0000)?;
    front_in(bytes, 2, low / 0x1_0000, high / 0x1_0000)?;
    front_in(bytes, 3, low / 0x100, high / 0x100)?;
    front_in(bytes, 4, low, high)
}

/// A number of three bytes, the highest first, up to high.
pub(crate) fn three_in(bytes: &[u8], high: u32) -> Result<(u32, &[u8]), Left>
    requires { high < 2 ^ 24 }
    ensures small { IfOk result (λ x. x.0 < 2 ^ 24) }
    ensures read { Gives (λ x. (x.0, x.1.now)) result (number_at 3 0 high bytes.now) }
{
    judge_three(bytes, high)?;
    Ok((BigEndian::read_u24(bytes), &bytes[3..]))
}

/// A number of four bytes, the highest first, from low to high.
pub(crate) fn number_in(bytes: &[u8], low: u32, high: u32) -> Result<(u32, &[u8]), Left>
    requires { low ≤ high }
    ensures from { IfOk result (λ x. low ≤ x.0) }
    ensures to { IfOk result (λ x. x.0 ≤ high) }
    ensures read { Gives (λ x. (x.0, x.1.now)) result (number_at 4 low high bytes.now) }
{
    judge_four(bytes, low, high)?;
    Ok((BigEndian::read_u32(bytes), &bytes[4..]))
}

/// The letters with which each dump begins; the bytes after them.
pub(crate) fn letters_in(bytes: &[u8]) -> Result<&[u8], Left>
    ensures { Gives (λ rest. (codes "VMSDUMP1", rest.now)) result (letters_at (codes "VMSDUMP1") bytes.now) }
{
    let mut rest = bytes;
    for letter in b"VMSDUMP1" {
        rest = byte_exactly(rest, *letter)?;
    }
    Ok(rest)
}
