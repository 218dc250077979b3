use crate::reason::Reason;
use arrayvec::ArrayVec;
use vm_types::Reply;

/// Why a line of a log isn't a legal next line.
#[derive(Debug, Drop)]
pub enum LineReason {
    /// The log ends, and is right as far as it goes.
    Ended,
    /// The log ends within the line.
    NotEnded,
    /// The line has more than 255 bytes.
    TooLong,
    /// The line is no entry's.
    NoEntry,
    /// The line is another entry's than that of this number, which is the next one.
    NotNextNumber(u64),
    /// The line isn't the next one of the report, or of the text behind the rundown. Of that one these are the
    /// first 80 bytes.
    NotInText(ArrayVec<u8, 80>),
    /// The entry isn't legal, since this condition doesn't hold.
    NotLegal(Reason),
    /// The entry doesn't answer what its process asks for next.
    OutOfOrder,
    /// A memory without frames and disk gives this reply.
    WrongReply(Reply),
    /// No rundown makes the entry next.
    NotOfRundown,
}
