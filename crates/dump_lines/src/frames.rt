//! The lines of frames.

ghost use Rattle.std.specs.Prelude.{◌≡◌, ◌+◌, ◌≤◌, ◌++◌, [], All, length};
ghost use Rattle.vm_types.specs.declared.limits.TheConstants.{MOST_FRAMES};
ghost use Rattle.arrayvec.specs.ArrayVec.{array_vec_len};
ghost use Rattle.outside_io.specs.Writes.{Writes};
ghost use Rattle.run_words.specs.Text.{ended};
ghost use Rattle.dump_lines.specs.FrameLines.{bad_text, frame_line, frame_lines, held_line, held_text};
ghost use Rattle.dump_lines.specs.PageText.{page_text};
ghost use Rattle.dump_lines.specs.Printable.{IsDumpPage, IsPrintableFrame};

use crate::codes::state_of_code;
use arrayvec::ArrayVec;
use command_ends::{push_counted, write_line};
use dump_bytes::FrameRec;
use outside_io::{Sink, WriteFault};
use vm_text::{push_count, push_mark, push_place, push_state, push_word};
use vm_types::{Addr, PAGE_BYTES, Page};

/// Adds a page, which is of one of 16 processes, or of one of 64 sections.
fn push_page(out: &mut ArrayVec<u8, 160>, page: Page)
    requires named { IsDumpPage page }
    requires room { array_vec_len out.old + 30 ≤ 150 }
    ensures items { out.new.items ≡ out.old.items ++ page_text page }
    ensures len { array_vec_len out.new ≤ array_vec_len out.old + 30 }
{
    match page {
        Page::Private(process, vpn) => push_place(out, process, Addr(PAGE_BYTES * vpn)),
        Page::Shared(section, number) => {
            push_counted(out, b"#", section.0);
            push_counted(out, b"/", number);
        }
    }
}

fn push_held(out: &mut ArrayVec<u8, 160>, f: u32, row: FrameRec, page: Page)
    requires named { IsDumpPage page }
    requires empty { out.old.items ≡ [] }
    ensures items { out.new.items ≡ held_text f row page }
    ensures len { array_vec_len out.new ≤ 159 }
{
    push_word(out, b"FRAME ");
    push_count(out, f);
    push_word(out, b" ");
    push_state(out, state_of_code(row.state));
    push_word(out, b" ");
    push_page(out, page);
    push_word(out, b" MODIFY ");
    push_mark(out, row.modify);
    push_counted(out, b" REFS ", row.refs);
    push_counted(out, b" SHARES ", row.shares);
}

fn print_bad<K: Sink>(f: u32, sink: &mut K) -> Result<(), WriteFault>
    ensures { Writes (K.seen sink.old) (K.seen sink.new) result (ended (bad_text f)) }
{
    let mut out = ArrayVec::new();
    push_word(&mut out, b"FRAME ");
    push_count(&mut out, f);
    push_word(&mut out, b" BAD");
    write_line(out, sink)
}

fn print_held<K: Sink>(f: u32, row: FrameRec, sink: &mut K) -> Result<(), WriteFault>
    requires { IsPrintableFrame row }
    ensures { Writes (K.seen sink.old) (K.seen sink.new) result (held_line f row row.page) }
{
    let Some(page) = row.page else {
        return Ok(());
    };
    let mut out = ArrayVec::new();
    push_held(&mut out, f, row, page);
    write_line(out, sink)
}

/// A bad frame has a line, another one only if it holds a page.
fn print_frame<K: Sink>(f: u32, row: FrameRec, sink: &mut K) -> Result<(), WriteFault>
    requires { IsPrintableFrame row }
    ensures { Writes (K.seen sink.old) (K.seen sink.new) result (frame_line f row) }
{
    if row.state == 2 {
        print_bad(f, sink)
    } else {
        print_held(f, row, sink)
    }
}

/// Writes the lines of the frames.
pub(crate) fn print_frames<K: Sink>(frames: &[FrameRec], sink: &mut K) -> Result<(), WriteFault>
    requires few { length frames.now ≤ MOST_FRAMES }
    requires printable { All IsPrintableFrame frames.now }
    ensures { Writes (K.seen sink.old) (K.seen sink.new) result (frame_lines 0 frames.now) }
{
    for (f, row) in frames.iter().enumerate() {
        print_frame(f as u32, *row, sink)?;
    }
    Ok(())
}
