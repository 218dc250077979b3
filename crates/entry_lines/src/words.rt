// The words of a line, taken from its front.
ghost use Rattle.std.specs.Prelude.{◌≡◌, ◌≢◌, ◌↔◌, ◌^◌, ◌<◌, ◌≤◌, [], ◌∷◌, All, IfSome, IsTrue, MatchOption, decimal, length, slice_index, take};
ghost use Rattle.vm_text.specs.Hex.{hex};
ghost use Rattle.vm_text.specs.Names.{frame_text};
ghost use Rattle.vm_text.specs.Readings.{Takes};
ghost use Rattle.vm_text.specs.Spaced.{IsOther, words};
ghost use Rattle.entry_lines.specs.Front.{EndsWord, IsFront};

use std::marker::Model;
use vm_text::{after, cut, read_frame, read_hex, read_number};
use vm_types::Pfn;

/// The words of a line that are left, between single blanks. Contracts see them as a list of texts.
#[derive(Debug, Drop)]
pub(crate) struct Words<'a> {
    left: Option<&'a [u8]>,
}

impl<'a> Model for Words<'a> {
    ghost use Rattle.std.specs.Prelude.{List, ℕ};
    ghost use Rattle.vm_text.specs.Spaced.{words_left};

    ghost Value = { List (List ℕ) };

    ghost view = { λ w. words_left w.left };
}

impl<'a> Words<'a> {
    /// The words of a text: what stands between its blanks.
    pub(crate) fn of(text: &'a [u8]) -> Words<'a>
        ensures { result ≡ words text.now }
    {
        Words { left: Some(text) }
    }

    /// The next word, if one is left.
    #[inline(always)]
    pub(crate) fn next_word(&mut self) -> Option<&'a [u8]>
        ensures { MatchOption result ((self.old ≡ []) × (self.new ≡ [])) (λ word. self.old ≡ word.now ∷ self.new) }
    {
        let Some(text) = self.left else {
            return None;
        };
        match cut(text, b' ') {
            None => {
                self.left = None;
                Some(text)
            }
            Some((word, rest)) => {
                self.left = Some(rest);
                Some(word)
            }
        }
    }

    /// `Some` if no word is left.
    #[inline(always)]
    pub(crate) fn end(&self) -> Option<()>
        ensures { MatchOption result (self.now ≢ []) (λ _. self.now ≡ []) }
    {
        match self.left {
            None => Some(()),
            Some(_) => None,
        }
    }

    // Takes the first word of the text that is left, which has so many bytes.
    #[inline(always)]
    fn take_front(&mut self, text: &'a [u8], end: usize)
        requires left { self.old ≡ words text.now }
        requires ends { EndsWord text.now end }
        requires other { All (IsOther 32) (take end text.now) }
        ensures { take end text.now ∷ self.new ≡ self.old }
    {
        if end < text.len() {
            self.left = Some(&text[end + 1..]);
        } else {
            self.left = None;
        }
    }

    /// The number that the next word spells, below 2^64.
    pub(crate) fn next_number(&mut self) -> Option<u64>
        ensures { Takes (λ n. n < 2 ^ 64) (λ n. decimal n ∷ []) self.old self.new result }
    {
        match self.left {
            Some(text) => match front_number(text) {
                Some((number, end)) => {
                    self.take_front(text, end);
                    Some(number)
                }
                None => self.any_number(),
            },
            None => None,
        }
    }

    // The number that the next word spells, of any length.
    fn any_number(&mut self) -> Option<u64>
        ensures { Takes (λ n. n < 2 ^ 64) (λ n. decimal n ∷ []) self.old self.new result }
    {
        let word = self.next_word()?;
        read_number(word)
    }

    /// The frame of the next word.
    pub(crate) fn next_frame(&mut self) -> Option<Pfn>
        ensures { Takes (λ f. f.0 < 2 ^ 32) (λ f. frame_text f.0 ∷ []) self.old self.new result }
    {
        match self.left {
            Some(text) => match front_frame(text) {
                Some((number, end)) => {
                    self.take_front(text, end);
                    Some(Pfn(number))
                }
                None => self.any_frame(),
            },
            None => None,
        }
    }

    // The frame of the next word, of any length.
    fn any_frame(&mut self) -> Option<Pfn>
        ensures { Takes (λ f. f.0 < 2 ^ 32) (λ f. frame_text f.0 ∷ []) self.old self.new result }
    {
        let word = self.next_word()?;
        read_frame(word)
    }

    /// The number of the next word of so many hexadecimal digits, in capitals, 8 at most.
    #[inline(always)]
    pub(crate) fn next_hex(&mut self, places: u32) -> Option<u32>
        requires { places ≤ 8 }
        ensures { Takes (λ v. v < 16 ^ places) (λ v. hex places v ∷ []) self.old self.new result }
    {
        match self.left {
            Some(text) => match front_hex(text, places) {
                Some(value) => {
                    self.take_front(text, places as usize);
                    Some(value)
                }
                None => self.any_hex(places),
            },
            None => None,
        }
    }

    // The number of the next word of so many hexadecimal digits, if it has so many.
    fn any_hex(&mut self, places: u32) -> Option<u32>
        requires { places ≤ 8 }
        ensures { Takes (λ v. v < 16 ^ places) (λ v. hex places v ∷ []) self.old self.new result }
    {
        let word = self.next_word()?;
        read_hex(word, places)
    }
}

// Whether so many bytes end before a blank or with the text.
#[inline(always)]
fn ends_word(text: &[u8], end: usize) -> bool
    ensures { IsTrue result ↔ EndsWord text.now end }
{
    if end < text.len() {
        text[end] == b' '
    } else {
        end == text.len()
    }
}

#[inline(always)]
fn is_digit(byte: u8) -> bool
    ensures { IsTrue result ↔ ((48 ≤ byte) × (byte ≤ 57)) }
{
    b'0' <= byte && byte <= b'9'
}

// Whether so many digits at a text's front are at least one, and more only if the first isn't a zero.
#[inline(always)]
fn is_plain(text: &[u8], end: usize) -> bool
    requires { end ≤ length text.now }
    ensures { IsTrue result ↔ ((0 < end) × (slice_index text.now 0 ≡ 48 → end ≤ 1)) }
{
    0 < end && (text[0] != b'0' || end == 1)
}

// The number that a text's first word spells, if it has at most 19 digits, and how many.
#[inline(always)]
fn front_number(text: &[u8]) -> Option<(u64, usize)>
    ensures small { IfSome result (λ x. x.0 < 2 ^ 64) }
    ensures front { IfSome result (λ x. IsFront (decimal x.0) x.1 text.now) }
{
    let most = text.len().min(19);
    let mut number: u64 = 0;
    let mut end: usize = 0;
    while end < most && is_digit(text[end]) {
        number = 10 * number + u64::from(text[end] - b'0');
        end += 1;
    }
    if !is_plain(text, end) {
        return None;
    }
    if !ends_word(text, end) {
        return None;
    }
    Some((number, end))
}

// The number of the frame that a text's first word names, if it has at most 19 digits, and how many bytes
// the word has.
#[inline(always)]
fn front_frame(text: &[u8]) -> Option<(u32, usize)>
    ensures small { IfSome result (λ x. x.0 < 2 ^ 32) }
    ensures front { IfSome result (λ x. IsFront (frame_text x.0) x.1 text.now) }
{
    let digits = after(text, b"F")?;
    let (number, end) = front_number(digits)?;
    if number > 0xffff_ffff {
        return None;
    }
    Some((number as u32, end + 1))
}

// The number of a text's first word, if it has so many hexadecimal digits and no other byte.
#[inline(always)]
fn front_hex(text: &[u8], places: u32) -> Option<u32>
    requires { places ≤ 8 }
    ensures small { IfSome result (λ v. v < 16 ^ places) }
    ensures front { IfSome result (λ v. IsFront (hex places v) places text.now) }
{
    let end = places as usize;
    if !ends_word(text, end) {
        return None;
    }
    read_hex(&text[..end], places)
}
