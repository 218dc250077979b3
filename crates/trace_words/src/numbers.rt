ghost use Rattle.std.specs.Prelude.{◌≡◌};
ghost use Rattle.trace_words.specs.Number.{decimal_digit, hexadecimal_digit, IsDigitOrNone, decimal, decimal_within, hexadecimal};

use crate::cause::Cause;

// The value of each byte as a hexadecimal digit, 128 if it is none: more than eight digits are together.
const HEX_VALUES: [u8; 256] = [
    128, 128, 128, 128, 128, 128, 128, 128, 128, 128, 128, 128, 128, 128, 128, 128, 128, 128, 128,
    128, 128, 128, 128, 128, 128, 128, 128, 128, 128, 128, 128, 128, 128, 128, 128, 128, 128, 128,
    128, 128, 128, 128, 128, 128, 128, 128, 128, 128, 0, 1, 2, 3, 4, 5, 6, 7, 8, 9, 128, 128, 128,
    128, 128, 128, 128, 10, 11, 12, 13, 14, 15, 128, 128, 128, 128, 128, 128, 128, 128, 128, 128,
    128, 128, 128, 128, 128, 128, 128, 128, 128, 128, 128, 128, 128, 128, 128, 128, 10, 11, 12, 13,
    14, 15, 128, 128, 128, 128, 128, 128, 128, 128, 128, 128, 128, 128, 128, 128, 128, 128, 128,
    128, 128, 128, 128, 128, 128, 128, 128, 128, 128, 128, 128, 128, 128, 128, 128, 128, 128, 128,
    128, 128, 128, 128, 128, 128, 128, 128, 128, 128, 128, 128, 128, 128, 128, 128, 128, 128, 128,
    128, 128, 128, 128, 128, 128, 128, 128, 128, 128, 128, 128, 128, 128, 128, 128, 128, 128, 128,
    128, 128, 128, 128, 128, 128, 128, 128, 128, 128, 128, 128, 128, 128, 128, 128, 128, 128, 128,
    128, 128, 128, 128, 128, 128, 128, 128, 128, 128, 128, 128, 128, 128, 128, 128, 128, 128, 128,
    128, 128, 128, 128, 128, 128, 128, 128, 128, 128, 128, 128, 128, 128, 128, 128, 128, 128, 128,
    128, 128, 128, 128, 128, 128, 128, 128, 128, 128, 128, 128, 128, 128, 128, 128, 128, 128, 128,
    128, 128, 128,
];

fn digit_of_ten(byte: u8) -> Result<u8, Cause>
    ensures { result ≡ decimal_digit byte }
{
    match byte {
        b'0'..=b'9' => Ok(byte - b'0'),
        _ => Err(Cause::BadNumber),
    }
}

// The value of a hexadecimal digit, or 128 for another byte.
fn digit_or_none(byte: u8) -> u8
    ensures { IsDigitOrNone byte result }
{
    HEX_VALUES[byte as usize]
}

pub(crate) fn digit_of_sixteen(byte: u8) -> Result<u8, Cause>
    ensures { result ≡ hexadecimal_digit byte }
{
    let digit = digit_or_none(byte);
    if digit < 16 {
        Ok(digit)
    } else {
        Err(Cause::BadNumber)
    }
}

/// The number of one to ten decimal digits.
///
/// # Errors
/// `BadNumber` if it is none, `OutOfRange` if it is 2^32 or more.
pub fn decimal(word: &[u8]) -> Result<u32, Cause>
    ensures { result ≡ decimal word.now }
{
    if word.is_empty() || word.len() > 10 {
        return Err(Cause::BadNumber);
    }
    let mut value: u64 = 0;
    for byte in word {
        value = 10 * value + u64::from(digit_of_ten(*byte)?);
    }
    if value > 0xffff_ffff {
        return Err(Cause::OutOfRange);
    }
    Ok(value as u32)
}

/// The decimal number from `low` to `high`.
///
/// # Errors
/// `BadNumber` if it is none, `OutOfRange` if it is out of that range.
pub fn decimal_within(low: u32, high: u32, word: &[u8]) -> Result<u32, Cause>
    ensures { result ≡ decimal_within low high word.now }
{
    let n = decimal(word)?;
    if low <= n && n <= high {
        Ok(n)
    } else {
        Err(Cause::OutOfRange)
    }
}

/// The number of one to eight hexadecimal digits in either case.
///
/// # Errors
/// `BadNumber` if it is none.
pub fn hexadecimal(word: &[u8]) -> Result<u32, Cause>
    ensures { result ≡ hexadecimal word.now }
{
    if word.is_empty() || word.len() > 8 {
        return Err(Cause::BadNumber);
    }
    let mut value: u64 = 0;
    let mut sum: u64 = 0;
    for byte in word {
        let digit = u64::from(digit_or_none(*byte));
        value = 16 * value + digit;
        sum += digit;
    }
    if sum < 128 {
        Ok(value as u32)
    } else {
        Err(Cause::BadNumber)
    }
}
