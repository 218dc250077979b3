ghost use Rattle.std.specs.Prelude.{◌≡◌, ◌≢◌, ◌↔◌, ℕ, ◌+◌, ◌-◌, ◌*◌, ◌/◌, ◌%◌, ◌^◌, ◌<◌, ◌≤◌, ◌++◌, ◌∷◌, [], length, slice_index, decimal, IsTrue, IfSome, IfNone, MatchOption};
ghost use Rattle.std.specs.Int.{IsInRange};
ghost use Rattle.arrayvec.specs.ArrayVec.{array_vec_len};
ghost use Rattle.vm_text.specs.Hex.{hex, hex_digit};
ghost use Rattle.vm_text.specs.Readings.{Reads};

use crate::text::push_word;
use arrayvec::ArrayVec;
use itoa::Buffer;

// The two hexadecimal digits of each byte, in capitals.
static HEX_PAIRS: [u8; 512] =
    *b"000102030405060708090A0B0C0D0E0F101112131415161718191A1B1C1D1E1F202122232425262728292A2B2C2D2E2F303132333435363738393A3B3C3D3E3F404142434445464748494A4B4C4D4E4F505152535455565758595A5B5C5D5E5F606162636465666768696A6B6C6D6E6F707172737475767778797A7B7C7D7E7F808182838485868788898A8B8C8D8E8F909192939495969798999A9B9C9D9E9FA0A1A2A3A4A5A6A7A8A9AAABACADAEAFB0B1B2B3B4B5B6B7B8B9BABBBCBDBEBFC0C1C2C3C4C5C6C7C8C9CACBCCCDCECFD0D1D2D3D4D5D6D7D8D9DADBDCDDDEDFE0E1E2E3E4E5E6E7E8E9EAEBECEDEEEFF0F1F2F3F4F5F6F7F8F9FAFBFCFDFEFF";

// The two decimal digits of each number below 100.
static DECIMAL_PAIRS: [u8; 200] =
    *b"00010203040506070809101112131415161718192021222324252627282930313233343536373839404142434445464748495051525354555657585960616263646566676869707172737475767778798081828384858687888990919293949596979899";

/// Adds a number in decimal digits without leading zeros. Doesn't allocate.
#[inline(always)]
pub fn push_decimal<const CAP: usize>(out: &mut ArrayVec<u8, CAP>, number: u64)
    requires { array_vec_len out.old + 20 ≤ CAP }
    ensures items { out.new.items ≡ out.old.items ++ decimal number }
    ensures len { array_vec_len out.new ≤ array_vec_len out.old + 20 }
{
    if number < 100_000_000 {
        push_short(out, number as u32);
    } else {
        let mut buffer = Buffer::new();
        push_word(out, buffer.format(number).as_bytes());
    }
}

/// Adds a number of 32 bits in decimal digits without leading zeros. Doesn't allocate.
#[inline(always)]
pub fn push_count<const CAP: usize>(out: &mut ArrayVec<u8, CAP>, number: u32)
    requires { array_vec_len out.old + 10 ≤ CAP }
    ensures items { out.new.items ≡ out.old.items ++ decimal number }
    ensures len { array_vec_len out.new ≤ array_vec_len out.old + 10 }
{
    if number < 100_000_000 {
        push_short(out, number);
    } else {
        let mut buffer = Buffer::new();
        push_word(out, buffer.format(number).as_bytes());
    }
}

// Adds the two decimal digits of a number below 100.
#[inline(always)]
fn push_pair<const CAP: usize>(out: &mut ArrayVec<u8, CAP>, number: u32)
    requires few { number < 100 }
    requires room { array_vec_len out.old + 2 ≤ CAP }
    ensures items { out.new.items ≡ out.old.items ++ (48 + number / 10) ∷ (48 + number % 10) ∷ [] }
    ensures len { array_vec_len out.new ≡ array_vec_len out.old + 2 }
{
    let at = 2 * number as usize;
    out.push(DECIMAL_PAIRS[at]);
    out.push(DECIMAL_PAIRS[at + 1]);
}

// Adds a number below 100.
#[inline(always)]
fn push_first<const CAP: usize>(out: &mut ArrayVec<u8, CAP>, number: u32)
    requires few { number < 100 }
    requires room { array_vec_len out.old + 2 ≤ CAP }
    ensures items { out.new.items ≡ out.old.items ++ decimal number }
    ensures len { array_vec_len out.new ≤ array_vec_len out.old + 2 }
{
    if number < 10 {
        out.push(b'0' + number as u8);
    } else {
        push_pair(out, number);
    }
}

// Adds a number of at most four digits.
#[inline(always)]
fn push_four<const CAP: usize>(out: &mut ArrayVec<u8, CAP>, number: u32)
    requires few { number < 10000 }
    requires room { array_vec_len out.old + 4 ≤ CAP }
    ensures items { out.new.items ≡ out.old.items ++ decimal number }
    ensures len { array_vec_len out.new ≤ array_vec_len out.old + 4 }
{
    if number < 100 {
        push_first(out, number);
    } else {
        push_first(out, number / 100);
        push_pair(out, number % 100);
    }
}

// Adds a number of at most eight digits.
#[inline(always)]
fn push_short<const CAP: usize>(out: &mut ArrayVec<u8, CAP>, number: u32)
    requires few { number < 100000000 }
    requires room { array_vec_len out.old + 8 ≤ CAP }
    ensures items { out.new.items ≡ out.old.items ++ decimal number }
    ensures len { array_vec_len out.new ≤ array_vec_len out.old + 8 }
{
    if number < 10_000 {
        push_four(out, number);
    } else {
        let last = number % 10_000;
        push_four(out, number / 10_000);
        push_pair(out, last / 100);
        push_pair(out, last % 100);
    }
}

// Adds the hexadecimal digit of a number below 16.
#[inline(always)]
fn push_digit<const CAP: usize>(out: &mut ArrayVec<u8, CAP>, digit: u32)
    requires few { digit < 16 }
    requires room { array_vec_len out.old + 1 ≤ CAP }
    ensures items { out.new.items ≡ out.old.items ++ hex_digit digit ∷ [] }
    ensures len { array_vec_len out.new ≡ array_vec_len out.old + 1 }
{
    out.push(HEX_PAIRS[2 * digit as usize + 1]);
}

// Adds the two hexadecimal digits of a number below 256.
#[inline(always)]
fn push_byte<const CAP: usize>(out: &mut ArrayVec<u8, CAP>, byte: u32)
    requires few { byte < 256 }
    requires room { array_vec_len out.old + 2 ≤ CAP }
    ensures items { out.new.items ≡ out.old.items ++ hex 2 byte }
    ensures len { array_vec_len out.new ≡ array_vec_len out.old + 2 }
{
    let at = 2 * byte as usize;
    out.push(HEX_PAIRS[at]);
    out.push(HEX_PAIRS[at + 1]);
}

/// Adds the last `places` hexadecimal digits of the value, 8 at most. Doesn't allocate.
pub fn push_hex<const CAP: usize>(out: &mut ArrayVec<u8, CAP>, value: u32, places: u32)
    requires few { places ≤ 8 }
    requires room { array_vec_len out.old + places ≤ CAP }
    ensures items { out.new.items ≡ out.old.items ++ hex places value }
    ensures len { array_vec_len out.new ≡ array_vec_len out.old + places }
{
    if places % 2 == 1 {
        push_digit(out, (value >> (4 * (places - 1))) % 16);
    }
    for pair in (0..places / 2).rev() {
        push_byte(out, (value >> (8 * pair)) % 256);
    }
}

// Whether there are one to 20 bytes, and more than one only if the first isn't a zero.
#[inline(always)]
fn may_be_number(word: &[u8]) -> bool
    ensures { IsTrue result ↔ ((0 < length word.now) × (length word.now ≤ 20) × (slice_index word.now 0 ≡ 48 → length word.now ≤ 1)) }
{
    !word.is_empty() && word.len() <= 20 && (word[0] != b'0' || word.len() == 1)
}

// The number with one decimal digit more.
#[inline(always)]
fn with_digit(number: u64, byte: u8) -> Option<u64>
    ensures some { IfSome result (λ n. IsInRange 48 57 byte × (n ≡ number * 10 + (byte - 48))) }
    ensures none { IfNone result (IsInRange 48 57 byte → 2 ^ 64 ≤ number * 10 + (byte - 48)) }
{
    if byte < b'0' || byte > b'9' {
        return None;
    }
    let tenfold = number.checked_mul(10)?;
    tenfold.checked_add(u64::from(byte - b'0'))
}

/// The number of this word: one to 20 decimal digits without leading zeros, below 2^64. Doesn't
/// allocate.
pub fn read_number(word: &[u8]) -> Option<u64>
    ensures { Reads (λ n. n < 2 ^ 64) decimal word.now result }
{
    if !may_be_number(word) {
        return None;
    }
    let mut number: u64 = 0;
    for byte in word {
        let Some(more) = with_digit(number, *byte) else {
            return None;
        };
        number = more;
    }
    Some(number)
}

/// The number of this word, below 2^32. Doesn't allocate.
pub fn read_count(word: &[u8]) -> Option<u32>
    ensures { Reads (λ n. n < 2 ^ 32) decimal word.now result }
{
    let number = read_number(word)?;
    if number > 0xffff_ffff {
        return None;
    }
    Some(number as u32)
}

#[inline(always)]
fn digit_of(byte: u8) -> Option<u8>
    ensures { MatchOption result ((d : ℕ) → d < 16 → hex_digit d ≢ byte) (λ d. (d < 16) × (hex_digit d ≡ byte)) }
{
    match byte {
        b'0'..=b'9' => Some(byte - b'0'),
        b'A'..=b'F' => Some(byte - b'A' + 10),
        _ => None,
    }
}

/// The number of this word of so many hexadecimal digits, in capitals, 8 at most. Doesn't allocate.
pub fn read_hex(word: &[u8], places: u32) -> Option<u32>
    requires { places ≤ 8 }
    ensures { Reads (λ v. v < 16 ^ places) (hex places) word.now result }
{
    if word.len() != places as usize {
        return None;
    }
    let mut value: u32 = 0;
    for byte in word {
        let Some(digit) = digit_of(*byte) else {
            return None;
        };
        value = 16 * value + u32::from(digit);
    }
    Some(value)
}
