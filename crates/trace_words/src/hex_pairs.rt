ghost use Rattle.std.specs.Prelude.{◌≡◌};
ghost use Rattle.trace_words.specs.Pairs.{pairs, held};

use crate::cause::Cause;
use crate::numbers::digit_of_sixteen;
use arrayvec::ArrayVec;

/// The 1 to 64 bytes that a word spells by pairs of hexadecimal digits in either case.
///
/// # Errors
/// `BadNumber` if it spells none, or more.
pub fn pairs(word: &[u8]) -> Result<ArrayVec<u8, 64>, Cause>
    ensures { held result ≡ pairs word.now }
{
    if word.len() < 2 || word.len() > 128 {
        return Err(Cause::BadNumber);
    }
    let mut bytes = ArrayVec::new();
    let mut rest = word;
    while rest.len() >= 2 {
        let high = digit_of_sixteen(rest[0])?;
        let low = digit_of_sixteen(rest[1])?;
        bytes.push(16 * high + low);
        let (_, after) = rest.split_at(2);
        rest = after;
    }
    if rest.is_empty() {
        Ok(bytes)
    } else {
        Err(Cause::BadNumber)
    }
}
