ghost use Rattle.std.specs.Prelude.{◌≡◌};
ghost use Rattle.command_ends.specs.Wrongs.{wrong_of};

use log_reasons::LineReason;
use trace_reader::{Breach, TraceFault};
use vm_types::Proc;

/// What is wrong with an input.
#[derive(Debug, Drop)]
pub enum Wrong {
    /// The first faulty line of a trace, by its number from 1, and the first rule that it breaks.
    Line(u32, Breach),
    /// The input has no bytes.
    Empty,
    /// A trace ends without a faulty line, and before its line END or the line that begins its log.
    Unfinished,
    /// A log goes on after as many legal lines as a log may have.
    LogTooLong,
    /// The line of a log, by its number from 1, that is the first that isn't a legal next line, and why it isn't.
    LogLine(u32, LineReason),
    /// So many bytes begin a dump; with the next byte they begin none, or they are all and no whole one.
    DumpByte(u64),
    /// The trace has no process of this number, which was asked for. It is studied all the same.
    Undeclared(Proc),
}

/// What is wrong with a trace that gives no configuration; `None` if memory ran out or a read failed.
/// Doesn't allocate.
pub fn wrong_of(fault: TraceFault) -> Option<Wrong>
    ensures { result ≡ wrong_of fault }
{
    match fault {
        TraceFault::Line(number, breach) => Some(Wrong::Line(number, breach)),
        TraceFault::Empty => Some(Wrong::Empty),
        TraceFault::Unfinished => Some(Wrong::Unfinished),
        TraceFault::ReadFault => None,
        TraceFault::NoMemory => None,
    }
}
