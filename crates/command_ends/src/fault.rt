ghost use Rattle.std.specs.Prelude.{◌≡◌, ◌++◌, ◌≤◌, length};
ghost use Rattle.outside_io.specs.Writes.{Writes};
ghost use Rattle.run_words.specs.Text.{status_line};
ghost use Rattle.command_ends.specs.Ends.{Ends};
ghost use Rattle.command_ends.specs.FaultText.{cause_text, fault_status, fault_text, fault_told, unfinished_text};

use crate::line::write_line;
use crate::status::{Status, end_with};
use arrayvec::ArrayVec;
use outside_io::{Sink, WriteFault};
use trace_reader::{Cause, TraceFault};
use vm_text::{push_decimal, push_word};

// The cause's name in capitals, which has at most eleven bytes.
fn name_of(cause: Cause) -> &'static [u8]
    ensures value { result.now ≡ cause_text cause }
    ensures short { length result.now ≤ 11 }
{
    match cause {
        Cause::LineTooLong => b"LINETOOLONG",
        Cause::NotAscii => b"NOTASCII",
        Cause::TooMany => b"TOOMANY",
        Cause::UnknownWord => b"UNKNOWNWORD",
        Cause::Misplaced => b"MISPLACED",
        Cause::NoSuch => b"NOSUCH",
        Cause::BadNumber => b"BADNUMBER",
        Cause::OutOfRange => b"OUTOFRANGE",
        Cause::Unaligned => b"UNALIGNED",
        Cause::Repeated => b"REPEATED",
    }
}

/// Writes a line that says what is wrong with the trace.
fn print_fault<K: Sink>(n: u32, cause: Cause, sink: &mut K) -> Result<(), WriteFault>
    ensures { Writes (K.seen sink.old) (K.seen sink.new) result (fault_text n cause) }
{
    let mut out = ArrayVec::new();
    push_word(&mut out, b"TRACE ");
    push_decimal(&mut out, u64::from(n));
    push_word(&mut out, b" ");
    push_word(&mut out, name_of(cause));
    write_line(out, sink)
}

fn print_unfinished<K: Sink>(sink: &mut K) -> Result<(), WriteFault>
    ensures { Writes (K.seen sink.old) (K.seen sink.new) result unfinished_text }
{
    let mut out = ArrayVec::new();
    push_word(&mut out, b"TRACE UNFINISHED");
    write_line(out, sink)
}

/// Ends with status 2 after the line of the trace that is at fault.
fn end_faulty<K: Sink>(n: u32, cause: Cause, sink: &mut K) -> Status
    ensures { Ends (K.seen sink.old) (K.seen sink.new)
        2 (fault_text n cause ++ status_line 2) result.0 }
{
    match print_fault(n, cause, sink) {
        Ok(()) => end_with(2, sink),
        Err(_) => Status(4),
    }
}

/// Ends with status 2 after a trace that is unfinished.
fn end_unfinished<K: Sink>(sink: &mut K) -> Status
    ensures { Ends (K.seen sink.old) (K.seen sink.new)
        2 (unfinished_text ++ status_line 2) result.0 }
{
    match print_unfinished(sink) {
        Ok(()) => end_with(2, sink),
        Err(_) => Status(4),
    }
}

/// Ends after a trace that gives no configuration: with status 2 after a line that says what is wrong
/// with it, with 3 if a read failed, with 7 if memory ran out; with 4 if that can't be written.
/// Doesn't allocate.
pub fn end_fault<K: Sink>(fault: TraceFault, sink: &mut K) -> Status
    ensures { Ends (K.seen sink.old) (K.seen sink.new)
        (fault_status fault) (fault_told fault) result.0 }
{
    match fault {
        TraceFault::Line(n, breach) => end_faulty(n, breach.cause, sink),
        TraceFault::Empty | TraceFault::Unfinished => end_unfinished(sink),
        TraceFault::ReadFault => end_with(3, sink),
        TraceFault::NoMemory => end_with(7, sink),
    }
}
