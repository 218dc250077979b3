ghost use Rattle.std.specs.Prelude.{◌≡◌, ◌+◌, ◌≤◌, ◌++◌, length, decimal};
ghost use Rattle.arrayvec.specs.ArrayVec.{array_vec_len};
ghost use Rattle.outside_io.specs.Writes.{Writes};
ghost use Rattle.run_words.specs.Text.{ended};

use arrayvec::ArrayVec;
use outside_io::{Sink, WriteFault, write_whole};
use vm_text::{push_count, push_word};

/// Adds a word of at most 150 bytes together with those before it, and a count in decimal digits.
/// Doesn't allocate.
pub fn push_counted(out: &mut ArrayVec<u8, 160>, word: &[u8], count: u32)
    requires { array_vec_len out.old + length word.now ≤ 150 }
    ensures items { out.new.items ≡ out.old.items ++ word.now ++ decimal count }
    ensures len { array_vec_len out.new ≤ array_vec_len out.old + length word.now + 10 }
{
    push_word(out, word);
    push_count(out, count);
}

/// Writes a line of at most 159 bytes with the byte 10 that ends it, in one write of a whole text.
/// Doesn't allocate.
///
/// # Errors
/// `Failed` only if the sink's count of failures rose. `NoneTaken` exactly if its count of stalls
/// rose. After either the sink has taken less than the line, a prefix of it.
pub fn write_line<K: Sink>(mut line: ArrayVec<u8, 160>, sink: &mut K) -> Result<(), WriteFault>
    requires { array_vec_len line ≤ 159 }
    ensures { Writes (K.seen sink.old) (K.seen sink.new) result (ended line.items) }
{
    line.push(b'\n');
    write_whole(sink, line.as_slice())
}
