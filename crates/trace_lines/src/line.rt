use arrayvec::ArrayVec;
use trace_words::Param;
use vm_types::{BlockId, Mapping, ProcSpec, SectionKind, Task, Version};

/// What a line says.
#[derive(Debug, Drop)]
pub enum Line<'a> {
    /// Nothing: it is skipped.
    Nothing,
    /// VMTRACE or LONGTRACE, and the version.
    Version(Version),
    /// So many frames.
    Frames(u32),
    /// So many blocks of the page file.
    PageFile(u32),
    /// A parameter's value.
    Param(Param, u32),
    /// A bad frame.
    Bad(u32),
    /// A section: its name, its kind, and its pages.
    Section(&'a [u8], SectionKind, u32),
    /// Bytes of a section: its number, the place of the first, and the bytes.
    Data(usize, u32, ArrayVec<u8, 64>),
    /// The next process.
    Process(ProcSpec),
    /// A mapping.
    Map(Mapping),
    /// A block and its calls that fail.
    Fail(BlockId, ArrayVec<u32, 16>),
    /// The requests follow.
    Body,
    /// A request.
    Request(Task),
    /// No more requests follow.
    End,
}
