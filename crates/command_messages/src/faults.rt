//! What may be wrong with a command line.

/// A command.
#[derive(Clone, Copy, Debug, PartialEq, Eq)]
pub enum CommandName {
    /// Reads a trace and runs it.
    Serial,
    /// Reads a trace and runs it by threads.
    Replay,
    /// Reads a trace and says what a process's references cost.
    Study,
    /// Makes a trace and runs it.
    Make,
    /// Reads a trace and a log and judges the log.
    Check,
    /// Reads a trace, runs it, and writes the dump at the report's place.
    Dump,
    /// Reads a dump and writes its text.
    Show,
}

/// An option of a command.
#[derive(Clone, Copy, Debug, PartialEq, Eq)]
pub enum LineOption {
    /// The process of `study`.
    Process,
    /// The frames of `study`.
    Frames,
    /// The seed of `make`.
    Seed,
    /// The processes of `make`.
    Procs,
    /// The references of `make`.
    Refs,
}

/// What is wrong with a command line.
#[derive(Clone, Copy, Debug, PartialEq, Eq)]
pub enum LineFault {
    /// A word isn't UTF-8.
    NotText,
    /// There is no word.
    NoCommand,
    /// The first word is no command.
    NoSuchCommand,
    /// No word is that of an option of the command.
    Missing(LineOption),
    /// An option of the command has a value that it may not have, or none.
    BadValue(LineOption),
    /// Words are too many, or stand in another way than the command takes them.
    Other(CommandName),
}
