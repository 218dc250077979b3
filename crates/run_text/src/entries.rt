ghost use Rattle.std.specs.Prelude.{◌≡◌, ◌+◌, ◌^◌, ◌<◌, ◌≤◌, ◌++◌, length, All};
ghost use Rattle.arrayvec.specs.ArrayVec.{array_vec_len};
ghost use Rattle.vm_text.specs.Named.{AreNames};
ghost use Rattle.vm_journal.specs.HasLine.{HasLine};
ghost use Rattle.vm_journal.specs.Line.{line_text};
ghost use Rattle.outside_io.specs.Writes.{Writes};
ghost use Rattle.run_words.specs.Text.{ended, entry_lines};

use arrayvec::ArrayVec;
use entry_lines::add_line;
use outside_io::{Sink, WriteFault, write_whole};
use vm_journal::Entry;
use vm_types::Section;

// Adds the line of entry `number`, with the byte 10 that ends it.
fn push_line(number: u64, e: &Entry, procs: u32, names: &[Section], lines: &mut ArrayVec<u8, 2048>)
    requires names { AreNames procs names.now }
    requires has_line { HasLine procs names.now e.now }
    requires room { array_vec_len lines.old ≤ 1888 }
    ensures { lines.new.items ≡ lines.old.items ++ ended (line_text number e.now procs names.now) }
{
    add_line(number, e, procs, names, lines);
    lines.push(b'\n');
}

// Writes these lines in one write of a whole text.
fn write_lines<K: Sink>(lines: &ArrayVec<u8, 2048>, sink: &mut K) -> Result<(), WriteFault>
    ensures { Writes (K.seen sink.old) (K.seen sink.new) result lines.now.items }
{
    write_whole(sink, lines.as_slice())
}

/// Writes the entries' lines, each with the byte 10 that ends it in one write of a whole text, which
/// has other lines too: as many as there is room for in 2048 bytes. The first entry has the number
/// `first`, and each other one the number after that of the one before it. `procs` is the number of
/// processes, and `names` are the sections. Doesn't allocate.
///
/// # Errors
/// `Failed` only if the sink's count of failures rose. `NoneTaken` exactly if its count of
/// stalls rose. After either the sink has taken less than the lines, a prefix of them.
pub fn print_entries<K: Sink>(
    first: u64,
    entries: &[Entry],
    procs: u32,
    names: &[Section],
    sink: &mut K,
) -> Result<(), WriteFault>
    requires numbers { first + length entries.now < 2 ^ 64 }
    requires names { AreNames procs names.now }
    requires have_lines { All (HasLine procs names.now) entries.now }
    ensures { Writes (K.seen sink.old) (K.seen sink.new) result (entry_lines first procs names.now entries.now) }
{
    let mut number = first;
    let mut lines = ArrayVec::new();
    for e in entries {
        push_line(number, e, procs, names, &mut lines);
        number += 1;
        if lines.remaining_capacity() < 160 {
            write_lines(&lines, sink)?;
            lines.clear();
        }
    }
    write_lines(&lines, sink)
}
