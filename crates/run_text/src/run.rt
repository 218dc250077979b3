ghost use Rattle.std.specs.Prelude.{◌≡◌, ◌+◌, ◌^◌, ◌<◌, List, length, All};
ghost use Rattle.vm_text.specs.Named.{AreNames, IsPrintablePage};
ghost use Rattle.vm_journal.specs.HasLine.{HasLine};
ghost use Rattle.vm_journal.specs.declared.entry.Entry.{Entry};
ghost use Rattle.outside_io.specs.Writes.{Writes};
ghost use Rattle.run_words.specs.Text.{run_text};
ghost use Rattle.run_text.specs.Printable.{IsPrintable};
ghost use Rattle.command_ends.specs.Ends.{Ends};
ghost use Rattle.run_text.specs.Parts.{parts_text, run_status};
ghost use Rattle.run_text.specs.Reported.{AreParts, IsReported};

use crate::dirty_lines::print_dirty;
use crate::entries::print_entries;
use crate::printing::print;
use crate::report::Report;
use command_ends::{Status, end_with};
use outside_io::{Sink, WriteFault};
use vm_journal::Entry;
use vm_types::{Config, Page, Section};

/// Writes both parts of the entries with the report between them, and the dirty pages. Doesn't allocate.
fn print_parts<K: Sink>(
    before: &[Entry],
    report: &Report,
    after: &[Entry],
    dirty: &[Page],
    procs: u32,
    names: &[Section],
    sink: &mut K,
) -> Result<(), WriteFault>
    requires numbers { length before.now + length after.now + 1 < 2 ^ 64 }
    requires names { AreNames procs names.now }
    requires before_lines { All (HasLine procs names.now) before.now }
    requires report { IsPrintable names.now report.now }
    requires after_lines { All (HasLine procs names.now) after.now }
    requires dirty { All (IsPrintablePage names.now) dirty.now }
    ensures { Writes (K.seen sink.old) (K.seen sink.new) result
        (parts_text procs names.now before.now report.now after.now dirty.now) }
{
    let next = before.len() as u64 + 1;
    print_entries(1, before, procs, names, sink)?;
    print(report, names, sink)?;
    print_entries(next, after, procs, names, sink)?;
    print_dirty(dirty, names, sink)
}

fn run_status(dirty: &[Page]) -> u8
    ensures { result ≡ run_status dirty.now }
{
    if dirty.is_empty() { 0 } else { 5 }
}

/// Writes the text of a finished run, whole lines in each write of a whole text: the lines of the first
/// `at` entries, the report, the lines of the other entries, a line for each page of a shared section
/// that is still held with its modify bit set, and the status. `entries` has the oldest first, `at` is
/// at most their number, and `dirty` is in order of section and page. The status is 5 if there is a
/// dirty page, and else 0; it is 4 if a write failed or took nothing, and then a proper prefix of the
/// text was taken. Doesn't allocate.
pub fn print_run<K: Sink>(
    config: &Config,
    entries: &[Entry],
    at: u64,
    report: &Report,
    dirty: &[Page],
    sink: &mut K,
) -> Status
    requires { IsReported config.now entries.now at report.now dirty.now }
    ensures { (past rest : List Entry) → AreParts entries.now at past rest → Ends (K.seen sink.old) (K.seen sink.new) (run_status dirty.now)
        (run_text config.now past rest (run_status dirty.now)) result.0 }
{
    let names = config.sections.items();
    let procs = config.procs.items().len() as u32;
    let (before, after) = entries.split_at(at as usize);
    match print_parts(before, report, after, dirty, procs, names, sink) {
        Err(_) => Status(4),
        Ok(()) => end_with(run_status(dirty), sink),
    }
}
