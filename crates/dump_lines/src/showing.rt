//! The text of a dump.

ghost use Rattle.std.specs.Prelude.{◌≡◌, ◌++◌};
ghost use Rattle.outside_io.specs.Writes.{Writes};
ghost use Rattle.command_ends.specs.Ends.{Ends};
ghost use Rattle.dump_bytes.specs.Bounds.{IsDump};
ghost use Rattle.dump_bytes.specs.Dumped.{dumped};
ghost use Rattle.dump_lines.specs.Counts.{recount_of};
ghost use Rattle.dump_lines.specs.ShowText.{count_line, dump_line, found_lines, held_lines, page_file_line, show_text};

use crate::checks::{count_wrong, print_wrong};
use crate::counts::Counts;
use crate::frames::print_frames;
use crate::list_lines::print_list;
use crate::processes::print_processes;
use arrayvec::ArrayVec;
use command_ends::{Status, end_with, push_counted, write_line};
use dump_bytes::Dump;
use outside_io::{Sink, WriteFault};

fn print_head<K: Sink>(dump: &Dump, sink: &mut K) -> Result<(), WriteFault>
    requires { IsDump (dumped dump.now) }
    ensures { Writes (K.seen sink.old) (K.seen sink.new) result (dump_line (dumped dump.now)) }
{
    let mut out = ArrayVec::new();
    push_counted(&mut out, b"DUMP ", dump.frames.len() as u32);
    push_counted(&mut out, b" ", dump.procs.len() as u32);
    write_line(out, sink)
}

fn print_page_file<K: Sink>(dump: &Dump, sink: &mut K) -> Result<(), WriteFault>
    ensures { Writes (K.seen sink.old) (K.seen sink.new) result (page_file_line (dumped dump.now)) }
{
    let mut out = ArrayVec::new();
    push_counted(&mut out, b"PAGEFILE ", dump.size);
    push_counted(&mut out, b" CHARGED ", dump.charged);
    push_counted(&mut out, b" ASSIGNED ", dump.assigned);
    write_line(out, sink)
}

// What the dump holds.
fn print_held<K: Sink>(dump: &Dump, sink: &mut K) -> Result<(), WriteFault>
    requires { IsDump (dumped dump.now) }
    ensures { Writes (K.seen sink.old) (K.seen sink.new) result (held_lines (dumped dump.now)) }
{
    print_head(dump, sink)?;
    print_frames(&dump.frames, sink)?;
    print_list(b"FREE", &dump.free, sink)?;
    print_list(b"MODIFIED", &dump.modified, sink)?;
    print_processes(&dump.procs, sink)?;
    print_page_file(dump, sink)
}

fn print_count<K: Sink>(wrong: u32, sink: &mut K) -> Result<(), WriteFault>
    ensures { Writes (K.seen sink.old) (K.seen sink.new) result (count_line wrong) }
{
    let mut out = ArrayVec::new();
    push_counted(&mut out, b"WRONG ", wrong);
    write_line(out, sink)
}

// What is wrong in it, and how much.
fn print_found<K: Sink>(dump: &Dump, counts: &[Counts], sink: &mut K) -> Result<(), WriteFault>
    requires bounds { IsDump (dumped dump.now) }
    requires recount { counts.now ≡ recount_of (dumped dump.now) }
    ensures { Writes (K.seen sink.old) (K.seen sink.new) result (found_lines (dumped dump.now)) }
{
    print_wrong(&dump.frames, counts, sink)?;
    print_count(count_wrong(&dump.frames, counts), sink)
}

fn print_all<K: Sink>(dump: &Dump, counts: &[Counts], sink: &mut K) -> Result<(), WriteFault>
    requires bounds { IsDump (dumped dump.now) }
    requires recount { counts.now ≡ recount_of (dumped dump.now) }
    ensures { Writes (K.seen sink.old) (K.seen sink.new) result (held_lines (dumped dump.now) ++ found_lines (dumped dump.now)) }
{
    print_held(dump, sink)?;
    print_found(dump, counts, sink)
}

/// Writes the text of a dump that keeps the bounds, codes and orders of its layout, by its recount: a
/// line for each page frame that is bad or holds a page, the page lists, the processes with the filled
/// slots of their working set lists, the page file's three numbers, each kept number that differs from
/// its recount, how many these are, and the line of status 0. Each line is one write of a whole text. It
/// ends with status 0, or with 4 if a line can't be written. Doesn't allocate.
pub fn show<K: Sink>(dump: &Dump, counts: &[Counts], sink: &mut K) -> Status
    requires bounds { IsDump (dumped dump.now) }
    requires recount { counts.now ≡ recount_of (dumped dump.now) }
    ensures { Ends (K.seen sink.old) (K.seen sink.new) 0 (show_text (dumped dump.now)) result.0 }
{
    match print_all(dump, counts, sink) {
        Ok(()) => end_with(0, sink),
        Err(_) => Status(4),
    }
}
