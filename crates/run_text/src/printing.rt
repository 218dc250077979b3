ghost use Rattle.std.specs.Prelude.{◌≡◌, ◌+◌, ◌<◌, ◌≤◌, ◌++◌, [], length, map, decimal, codes, All, IfSome};
ghost use Rattle.arrayvec.specs.ArrayVec.{array_vec_len};
ghost use Rattle.vm_text.specs.Named.{IsPrintablePage};
ghost use Rattle.outside_io.specs.Writes.{Writes};
ghost use Rattle.run_words.specs.Text.{ended, held_text, frame_line, frame_lines, states_text, page_file_text, process_text, process_lines, report_text};
ghost use Rattle.run_text.specs.Printable.{IsPrintable, IsPrintableRow};
ghost use Rattle.run_text.specs.Rows.{frame_view, process_view};

use crate::report::{FrameRow, ProcessRow, Report};
use arrayvec::ArrayVec;
use command_ends::{push_counted, write_line};
use outside_io::{Sink, WriteFault};
use vm_text::{
    push_decimal, push_mark, push_page, push_process, push_state, push_status, push_word,
};
use vm_types::{FrameState, Page, Proc, Section};

// How many entries were before it.
fn print_at<K: Sink>(at: u64, sink: &mut K) -> Result<(), WriteFault>
    ensures { Writes (K.seen sink.old) (K.seen sink.new) result (ended (codes "PFN AT " ++ decimal at)) }
{
    let mut out = ArrayVec::new();
    push_word(&mut out, b"PFN AT ");
    push_decimal(&mut out, at);
    write_line(out, sink)
}

// How many frames are in each state.
fn print_states<K: Sink>(states: &[u32], sink: &mut K) -> Result<(), WriteFault>
    requires { length states.now ≡ 8 }
    ensures { Writes (K.seen sink.old) (K.seen sink.new) result (ended (states_text states.now)) }
{
    let mut out = ArrayVec::new();
    push_states(&mut out, states);
    write_line(out, sink)
}

fn push_states(out: &mut ArrayVec<u8, 160>, states: &[u32])
    requires eight { length states.now ≡ 8 }
    requires empty { out.old.items ≡ [] }
    ensures items { out.new.items ≡ states_text states.now }
    ensures len { array_vec_len out.new ≤ 159 }
{
    push_counted(out, b"FREE ", states[0]);
    push_counted(out, b" MODIFIED ", states[1]);
    push_counted(out, b" BAD ", states[2]);
    push_counted(out, b" RELEASE ", states[3]);
    push_counted(out, b" READERROR ", states[4]);
    push_counted(out, b" WRITING ", states[5]);
    push_counted(out, b" READING ", states[6]);
    push_counted(out, b" ACTIVE ", states[7]);
}

fn print_frames<K: Sink>(
    frames: &[FrameRow],
    names: &[Section],
    sink: &mut K,
) -> Result<(), WriteFault>
    requires { All (IsPrintableRow names.now) (map frame_view frames.now) }
    ensures { Writes (K.seen sink.old) (K.seen sink.new) result
        (frame_lines names.now 0 (map frame_view frames.now)) }
{
    for (f, row) in frames.iter().enumerate() {
        print_frame(f as u64, *row, names, sink)?;
    }
    Ok(())
}

// A bad frame has a line, another one only where it holds a page.
fn print_frame<K: Sink>(
    f: u64,
    row: FrameRow,
    names: &[Section],
    sink: &mut K,
) -> Result<(), WriteFault>
    requires { IfSome row.page (IsPrintablePage names.now) }
    ensures { Writes (K.seen sink.old) (K.seen sink.new) result (frame_line names.now f (frame_view row)) }
{
    let mut out = ArrayVec::new();
    match row.page {
        Some(page) => push_held(&mut out, f, row, page, names),
        None => match row.state {
            FrameState::Bad => push_bad(&mut out, f),
            _ => return Ok(()),
        },
    }
    write_line(out, sink)
}

fn push_held(out: &mut ArrayVec<u8, 160>, f: u64, row: FrameRow, page: Page, names: &[Section])
    requires named { IsPrintablePage names.now page }
    requires empty { out.old.items ≡ [] }
    ensures items { out.new.items ≡ held_text names.now f (frame_view row) page }
    ensures len { array_vec_len out.new ≤ 159 }
{
    push_word(out, b"FRAME ");
    push_decimal(out, f);
    push_word(out, b" ");
    push_state(out, row.state);
    push_word(out, b" ");
    push_page(out, page, names);
    push_word(out, b" MODIFY ");
    push_mark(out, row.modify);
    push_counted(out, b" REFS ", row.refs);
    push_counted(out, b" SHARES ", row.shares);
}

fn push_bad(out: &mut ArrayVec<u8, 160>, f: u64)
    requires { out.old.items ≡ [] }
    ensures items { out.new.items ≡ codes "FRAME " ++ decimal f ++ codes " BAD" }
    ensures len { array_vec_len out.new ≤ 159 }
{
    push_word(out, b"FRAME ");
    push_decimal(out, f);
    push_word(out, b" BAD");
}

fn print_page_file<K: Sink>(report: &Report, sink: &mut K) -> Result<(), WriteFault>
    ensures { Writes (K.seen sink.old) (K.seen sink.new) result
        (ended (page_file_text report.now)) }
{
    let mut out = ArrayVec::new();
    push_counted(&mut out, b"PAGEFILE ", report.size);
    push_counted(&mut out, b" CHARGED ", report.charged);
    push_counted(&mut out, b" ASSIGNED ", report.assigned);
    write_line(out, sink)
}

fn print_processes<K: Sink>(processes: &[ProcessRow], sink: &mut K) -> Result<(), WriteFault>
    requires { length processes.now ≤ 16 }
    ensures { Writes (K.seen sink.old) (K.seen sink.new) result
        (process_lines 0 (map process_view processes.now)) }
{
    for (p, row) in processes.iter().enumerate() {
        print_process(p as u32, *row, sink)?;
    }
    Ok(())
}

fn print_process<K: Sink>(p: u32, row: ProcessRow, sink: &mut K) -> Result<(), WriteFault>
    requires { p < 16 }
    ensures { Writes (K.seen sink.old) (K.seen sink.new) result (ended (process_text p (process_view row))) }
{
    let mut out = ArrayVec::new();
    push_word(&mut out, b"PROCESS ");
    push_process(&mut out, Proc(p));
    push_word(&mut out, b" ");
    push_status(&mut out, row.status);
    push_counted(&mut out, b" COUNT ", row.count);
    push_counted(&mut out, b" LIMIT ", row.limit);
    write_line(out, sink)
}

/// Writes the report's lines, each with the byte 10 that ends it in one write of a whole text.
/// `names` are the sections. The report has the counts of eight states and at most 16 processes;
/// a page that a frame holds is a process's (below 16) and below 2^23, or one of a section whose
/// name has at most 15 bytes. Doesn't allocate.
///
/// # Errors
/// `Failed` only if the sink's count of failures rose. `NoneTaken` exactly if its count of
/// stalls rose. After either the sink has taken less than the lines, a prefix of them.
pub fn print<K: Sink>(report: &Report, names: &[Section], sink: &mut K) -> Result<(), WriteFault>
    requires { IsPrintable names.now report.now }
    ensures { Writes (K.seen sink.old) (K.seen sink.new) result (report_text names.now report.now) }
{
    print_at(report.at, sink)?;
    print_states(report.states.items(), sink)?;
    print_frames(report.frames.items(), names, sink)?;
    print_page_file(report, sink)?;
    print_processes(report.processes.items(), sink)
}
