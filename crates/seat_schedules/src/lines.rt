ghost use Rattle.std.specs.Prelude.{◌≡◌, ◌^◌, ◌<◌, ◌++◌, All, IfOk, OnOk, length};
ghost use Rattle.vm_text.specs.Named.{AreNames};
ghost use Rattle.vm_journal.specs.HasLine.{HasLine};
ghost use Rattle.vm_journal.specs.Line.{line_text};
ghost use Rattle.run_words.specs.Text.{ended, entry_lines};

use arrayvec::ArrayVec;
use entry_lines::line;
use std::alloc::Global;
use vm_journal::Entry;
use vm_types::{NoMemory, Section};

/// Adds the line of entry `number` to a text, with the byte 10 that ends it.
///
/// # Errors
/// `NoMemory` if out of memory.
fn add_line(
    text: &mut Vec<u8>,
    number: u64,
    e: &Entry,
    procs: u32,
    names: &[Section],
) -> Result<(), NoMemory>
    requires names { AreNames procs names.now }
    requires has_line { HasLine procs names.now e.now }
    ensures { OnOk result (text.new.items ≡ text.old.items ++ ended (line_text number e.now procs names.now)) }
{
    let mut out = ArrayVec::new();
    line(number, e, procs, names, &mut out);
    out.push(b'\n');
    text.extend_from_slice(out.as_slice())?;
    Ok(())
}

/// The entries' lines, each with the byte 10 that ends it. The first entry has the number 1, and each
/// other one the number after that of the one before it. `procs` is the number of processes, and
/// `names` are the sections.
///
/// # Errors
/// `NoMemory` if out of memory.
pub fn lines(
    alloc: Global,
    entries: &[Entry],
    procs: u32,
    names: &[Section],
) -> Result<Vec<u8>, NoMemory>
    requires numbers { length entries.now < 2 ^ 63 }
    requires names { AreNames procs names.now }
    requires have_lines { All (HasLine procs names.now) entries.now }
    ensures { IfOk result (λ text. text.items ≡ entry_lines 1 procs names.now entries.now) }
{
    let mut text = Vec::new(alloc);
    let mut number = 1;
    for e in entries {
        add_line(&mut text, number, e, procs, names)?;
        number += 1;
    }
    Ok(text)
}
