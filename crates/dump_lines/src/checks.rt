//! The kept numbers that differ from their recounts.

ghost use Rattle.std.specs.Prelude.{◌≡◌, ℕ, ◌≤◌, count_by, length};
ghost use Rattle.vm_types.specs.declared.limits.TheConstants.{MOST_FRAMES};
ghost use Rattle.outside_io.specs.Writes.{Writes};
ghost use Rattle.dump_lines.specs.Checks as checked;
ghost use Rattle.dump_lines.specs.Checks.{checks_from, checks_of};
ghost use Rattle.dump_lines.specs.Wrong.{is_wrong};
ghost use Rattle.dump_lines.specs.WrongLines.{wrong_line, wrong_lines};

use crate::counts::Counts;
use arrayvec::ArrayVec;
use command_ends::{push_counted, write_line};
use dump_bytes::FrameRec;
use outside_io::{Sink, WriteFault};
use vm_text::{push_frame, push_word};
use vm_types::Pfn;

/// Writes a line if the two numbers differ, which the dump keeps of the frame under this name.
fn print_check<K: Sink>(
    f: u32,
    name: &[u8],
    kept: u32,
    recount: u32,
    sink: &mut K,
) -> Result<(), WriteFault>
    requires { length name.now ≤ 8 }
    ensures { Writes (K.seen sink.old) (K.seen sink.new) result
        (wrong_line (record { frame = f; name = name.now; kept = kept; recount = recount })) }
{
    if kept == recount {
        return Ok(());
    }
    let mut out = ArrayVec::new();
    push_word(&mut out, b"WRONG ");
    push_frame(&mut out, Pfn(f));
    push_word(&mut out, b" ");
    push_word(&mut out, name);
    push_counted(&mut out, b" ", kept);
    push_counted(&mut out, b" RECOUNT ", recount);
    write_line(out, sink)
}

/// 1 if the frame is in the state of this code, else 0.
fn is_in(row: FrameRec, code: u8) -> u32
    ensures { result ≡ checked.is_in row code }
{
    u32::from(row.state == code)
}

/// Writes the lines of the frame's numbers that differ from their recounts.
fn print_checks<K: Sink>(
    f: u32,
    row: FrameRec,
    again: Counts,
    sink: &mut K,
) -> Result<(), WriteFault>
    ensures { Writes (K.seen sink.old) (K.seen sink.new) result (wrong_lines (checks_of f row again)) }
{
    print_check(f, b"REFS", row.refs, again.refs, sink)?;
    print_check(f, b"SHARES", row.shares, again.shares, sink)?;
    print_check(f, b"FREE", is_in(row, 0), again.free, sink)?;
    print_check(f, b"MODIFIED", is_in(row, 1), again.modified, sink)
}

/// How many of the frame's numbers differ from their recounts.
fn count_checks(row: FrameRec, again: Counts) -> u32
    ensures few { result ≤ 4 }
    ensures count { (f : ℕ) → result ≡ count_by is_wrong (checks_of f row again) }
{
    u32::from(row.refs != again.refs)
        + u32::from(row.shares != again.shares)
        + u32::from(is_in(row, 0) != again.free)
        + u32::from(is_in(row, 1) != again.modified)
}

/// Writes the lines of the frames' numbers that differ from their recounts.
pub(crate) fn print_wrong<K: Sink>(
    frames: &[FrameRec],
    counts: &[Counts],
    sink: &mut K,
) -> Result<(), WriteFault>
    requires few { length frames.now ≤ MOST_FRAMES }
    requires same { length counts.now ≡ length frames.now }
    ensures { Writes (K.seen sink.old) (K.seen sink.new) result (wrong_lines (checks_from 0 frames.now counts.now)) }
{
    for (f, row) in frames.iter().enumerate() {
        print_checks(f as u32, *row, counts[f], sink)?;
    }
    Ok(())
}

/// How many of the frames' numbers differ from their recounts.
pub(crate) fn count_wrong(frames: &[FrameRec], counts: &[Counts]) -> u32
    requires few { length frames.now ≤ MOST_FRAMES }
    requires same { length counts.now ≡ length frames.now }
    ensures { result ≡ count_by is_wrong (checks_from 0 frames.now counts.now) }
{
    let mut wrong = 0;
    for (f, row) in frames.iter().enumerate() {
        wrong += count_checks(*row, counts[f]);
    }
    wrong
}
