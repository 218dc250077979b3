//! The mark below a word of a line.

ghost use Rattle.std.specs.Prelude.{◌≡◌, ◌+◌, ◌-◌, ◌≤◌, ◌++◌, false, length, replicate};
ghost use Rattle.arrayvec.specs.ArrayVec.{array_vec_len};
ghost use Rattle.trace_words.specs.Words.{is_blank};
ghost use Rattle.command_messages.specs.Marks.{before, mark_text};

use arrayvec::ArrayVec;
use vm_text::push_word;

fn is_blank(byte: u8) -> bool
    ensures { result ≡ is_blank byte }
{
    byte == b' ' || byte == b'\t'
}

// How many bytes stand before the word that comes after so many.
fn place_of(text: &[u8], words: u8) -> usize
    ensures value { result ≡ length (before words false text.now) }
    ensures bound { result ≤ length text.now }
{
    let mut left = words;
    let mut inside = false;
    let mut place = 0;
    let mut rest = text;
    while let [first, after @ ..] = rest {
        if is_blank(*first) {
            inside = false;
        } else if !inside {
            if left == 0 {
                return place;
            }
            left -= 1;
            inside = true;
        }
        place += 1;
        rest = after;
    }
    place
}

// Adds so many blanks.
fn push_blanks(out: &mut ArrayVec<u8, 768>, count: usize)
    requires { array_vec_len out.old + count ≤ 768 }
    ensures items { out.new.items ≡ out.old.items ++ replicate count 32 }
    ensures len { array_vec_len out.new ≡ array_vec_len out.old + count }
{
    for i in 0..count {
        out.push(b' ');
    }
}

/// Adds a line with a mark below the word of this number of a line that stands behind four blanks; none for
/// the line as a whole, whose number is 0.
pub(crate) fn push_mark(out: &mut ArrayVec<u8, 768>, word: u8, text: &[u8])
    requires short { length text.now ≤ 80 }
    requires room { array_vec_len out.old ≤ 668 }
    ensures items { out.new.items ≡ out.old.items ++ mark_text word text.now }
{
    if word > 0 {
        let place = place_of(text, word - 1);
        push_blanks(out, 4 + place);
        push_word(out, b"^\n");
    }
}
