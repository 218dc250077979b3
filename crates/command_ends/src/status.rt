ghost use Rattle.std.specs.Prelude.{◌≢◌};
ghost use Rattle.outside_io.specs.Writes.{Writes};
ghost use Rattle.run_words.specs.Text.{status_line};
ghost use Rattle.command_ends.specs.Ends.{Ends};

use crate::line::{push_counted, write_line};
use arrayvec::ArrayVec;
use outside_io::{Sink, WriteFault};

/// The status with which a command ends: 0 if it did what was asked, 1 for a faulty command line, 2
/// for input that is no trace, 3 for a failed read, 4 for a failed write, 5 if a run left shared pages
/// dirty, 6 if a block could not be made, 7 if memory ran out.
#[derive(Clone, Copy, Debug, PartialEq, Eq)]
pub struct Status(pub u8);

fn print_status<K: Sink>(n: u8, sink: &mut K) -> Result<(), WriteFault>
    ensures { Writes (K.seen sink.old) (K.seen sink.new) result (status_line n) }
{
    let mut out = ArrayVec::new();
    push_counted(&mut out, b"STATUS ", u32::from(n));
    write_line(out, sink)
}

/// Writes the line of a status other than 4, in one write of a whole text, and ends with that status;
/// with 4 if the line can't be written. Doesn't allocate.
pub fn end_with<K: Sink>(n: u8, sink: &mut K) -> Status
    requires { n ≢ 4 }
    ensures { Ends (K.seen sink.old) (K.seen sink.new) n (status_line n) result.0 }
{
    match print_status(n, sink) {
        Ok(()) => Status(n),
        Err(_) => Status(4),
    }
}
