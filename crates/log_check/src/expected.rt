ghost use Rattle.std.specs.Prelude.{◌≡◌, ◌↔◌, [], IsTrue, slice_index_or};
ghost use Rattle.outside_io.specs.LineText.{line_text, lines_of};
ghost use Rattle.log_check.specs.Texts.{Begins, IsLineTaken};

use arrayvec::ArrayVec;
use outside_io::keep_front;
use std::marker::Model;
use vm_text::cut;

/// A text that the next lines have to be. Contracts see what is left of it.
#[derive(Debug, Drop)]
pub(crate) struct Expected {
    text: Vec<u8>,
    next: usize,
}

impl Model for Expected {
    ghost use Rattle.std.specs.Prelude.{ℕ, List, ◌≤◌, drop, vec_len};

    ghost Value = { List ℕ };

    ghost view = { λ x. drop x.next x.text.items };

    ghost invariant = { λ x. x.next ≤ vec_len x.text };
}

/// Whether a text begins with a line and the byte 10 behind it.
fn begins(text: &[u8], line: &[u8]) -> bool
    ensures { IsTrue result ↔ Begins text.now line.now }
{
    let end = line.len();
    if text.len() <= end {
        return false;
    }
    let (front, behind) = text.split_at(end);
    front == line && behind[0] == b'\n'
}

/// What stands before the first byte 10 of a text; all of it, if there is none.
fn first_line(text: &[u8]) -> &[u8]
    ensures { result.now ≡ slice_index_or (lines_of text.now) 0 [] }
{
    match cut(text, b'\n') {
        None => text,
        Some((line, _)) => line,
    }
}

impl Expected {
    /// All of a text is left.
    pub(crate) fn new(text: Vec<u8>) -> Expected
        ensures { result ≡ text.items }
    {
        Expected { text, next: 0 }
    }

    /// Whether nothing is left.
    pub(crate) fn is_empty(&self) -> bool
        ensures { IsTrue result ↔ (self.now ≡ []) }
    {
        self.next == self.text.len()
    }

    /// Takes a line with the byte 10 behind it, if what is left begins so, and says whether it does;
    /// else nothing is changed.
    pub(crate) fn take(&mut self, line: &[u8]) -> bool
        ensures { IsLineTaken self.old line.now result self.new }
    {
        if begins(&self.text[self.next..], line) {
            self.next += line.len() + 1;
            true
        } else {
            false
        }
    }

    /// The first 80 bytes of the next line, which stays.
    pub(crate) fn next_line(&self) -> ArrayVec<u8, 80>
        ensures { result.items ≡ line_text 1 self.now }
    {
        let mut kept = ArrayVec::new();
        keep_front(&mut kept, first_line(&self.text[self.next..]));
        kept
    }
}
