use thiserror::Error;

/// Why a line of a trace isn't accepted: the rule that it breaks, as the first of them that applies.
#[derive(Clone, Copy, Debug, PartialEq, Eq, Error)]
pub enum Cause {
    /// The line has more than 255 bytes.
    #[error("the line has more than 255 bytes")]
    LineTooLong,
    /// The line has a byte that is neither a blank, a tab nor a printable character.
    #[error("the line has a byte that is neither a blank, a tab nor a printable character")]
    NotAscii,
    /// There are more lines, sections, section pages, processes or requests than a trace may have.
    #[error("there are more lines, sections, section pages, processes or requests than a trace may have")]
    TooMany,
    /// A word is none of those that may stand in its place.
    #[error("a word is none of those that may stand in its place")]
    UnknownWord,
    /// The line doesn't belong here, or has too many or too few words.
    #[error("the line doesn't belong here, or has too many or too few words")]
    Misplaced,
    /// A process, section or block is named that no earlier line declares.
    #[error("a process, section or block is named that no earlier line declares")]
    NoSuch,
    /// A word stands in the place of a number and is none.
    #[error("a word stands in the place of a number and is none")]
    BadNumber,
    /// A number is out of its range, or doesn't fit the other numbers.
    #[error("a number is out of its range, or doesn't fit the other numbers")]
    OutOfRange,
    /// An address isn't a multiple of what it must be a multiple of.
    #[error("an address isn't a multiple of the page size or of the width of the reference")]
    Unaligned,
    /// What the line declares was declared before.
    #[error("what the line declares was declared before")]
    Repeated,
}
