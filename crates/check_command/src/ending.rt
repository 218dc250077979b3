//! The lines of a verdict.

ghost use Rattle.std.specs.Prelude.{◌≡◌, ◌≢◌, ◌≤◌, ◌++◌};
ghost use Rattle.arrayvec.specs.ArrayVec.{array_vec_len};
ghost use Rattle.run_words.specs.Text.{ended, status_line};
ghost use Rattle.command_ends.specs.Ends.{Ends};
ghost use Rattle.check_command.specs.CheckText.{legal_line};
ghost use Rattle.command_ends.specs.Wrongs.{log_fault_text, log_too_long_text};

use arrayvec::ArrayVec;
use command_ends::{Status, end_with, push_counted, write_line};
use outside_io::Sink;
use vm_text::push_word;

// Writes the line and a status other than 4.
fn end_line<K: Sink>(line: ArrayVec<u8, 160>, status: u8, sink: &mut K) -> Status
    requires short { array_vec_len line ≤ 159 }
    requires other { status ≢ 4 }
    ensures { Ends (K.seen sink.old) (K.seen sink.new) status (ended line.items ++ status_line status) result.0 }
{
    match write_line(line, sink) {
        Ok(()) => end_with(status, sink),
        Err(_) => Status(4),
    }
}

/// Ends with status 0 after the line of a legal log. Doesn't allocate.
pub(crate) fn end_legal<K: Sink>(entries: u32, sink: &mut K) -> Status
    ensures { Ends (K.seen sink.old) (K.seen sink.new) 0 (legal_line entries ++ status_line 0) result.0 }
{
    let mut line = ArrayVec::new();
    push_counted(&mut line, b"LOG OK ", entries);
    end_line(line, 0, sink)
}

/// Ends with status 8 after the number of the log's line that is at fault. Doesn't allocate.
pub(crate) fn end_at_fault<K: Sink>(number: u32, sink: &mut K) -> Status
    ensures { Ends (K.seen sink.old) (K.seen sink.new) 8 (log_fault_text number ++ status_line 8) result.0 }
{
    let mut line = ArrayVec::new();
    push_counted(&mut line, b"LOG FAULT ", number);
    end_line(line, 8, sink)
}

/// Ends with status 2 after a log that goes on too long. Doesn't allocate.
pub(crate) fn end_too_long<K: Sink>(sink: &mut K) -> Status
    ensures { Ends (K.seen sink.old) (K.seen sink.new) 2 (log_too_long_text ++ status_line 2) result.0 }
{
    let mut line = ArrayVec::new();
    push_word(&mut line, b"LOG TOOMANY");
    end_line(line, 2, sink)
}
