//! The words of a line by its first bytes.

ghost use Rattle.std.specs.Prelude.{◌≡◌};
ghost use Rattle.command_messages.specs.LineWords.{line_address, line_number, line_word};

use trace_lines::content;
use trace_words::{decimal, hexadecimal, next_word};

// The word of this number, from 1, if it is there as a whole; else none.
pub(crate) fn line_word(number: u8, text: &[u8]) -> &[u8]
    ensures { result.now ≡ line_word number text.now }
{
    let is_cut = text.len() >= 80;
    let mut left = number;
    let mut rest = content(text);
    while let Some((word, after)) = next_word(rest) {
        if left == 1 {
            return if is_cut && next_word(after).is_none() {
                b""
            } else {
                word
            };
        }
        left = left.saturating_sub(1);
        rest = after;
    }
    b""
}

// The decimal number that is the word of this number.
pub(crate) fn line_number(number: u8, text: &[u8]) -> Option<u32>
    ensures { result ≡ line_number number text.now }
{
    match decimal(line_word(number, text)) {
        Ok(n) => Some(n),
        Err(_) => None,
    }
}

// The address that is the word of this number.
pub(crate) fn line_address(number: u8, text: &[u8]) -> Option<u32>
    ensures { result ≡ line_address number text.now }
{
    match hexadecimal(line_word(number, text)) {
        Ok(n) => Some(n),
        Err(_) => None,
    }
}
