use crate::names::Addr;

/// An access mode, from the most privileged on: kernel, executive, supervisor, user.
#[derive(Clone, Copy, Debug, PartialEq, Eq)]
pub enum Mode {
    /// Kernel.
    K,
    /// Executive.
    E,
    /// Supervisor.
    S,
    /// User.
    U,
}

/// How many bytes a reference takes: one, two or four.
#[derive(Clone, Copy, Debug, PartialEq, Eq)]
pub enum Width {
    /// A byte.
    One,
    /// A word of two bytes.
    Two,
    /// A longword of four bytes.
    Four,
}

/// What a reference does: read, write a value, or add to a longword interlocked.
#[derive(Clone, Copy, Debug, PartialEq, Eq)]
pub enum Op {
    /// Reads so many bytes.
    Read(Width),
    /// Writes a value that fits so many bytes.
    Write(Width, u32),
    /// Adds to a longword modulo 2^32, interlocked.
    Add(u32),
}

/// A memory reference.
#[derive(Clone, Copy, Debug, PartialEq, Eq)]
pub struct Ref {
    pub mode: Mode,
    pub addr: Addr,
    pub op: Op,
}
