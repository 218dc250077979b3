/// A process, by its number from 0; its seat has the same number.
#[derive(Clone, Copy, Debug, PartialEq, Eq)]
pub struct Proc(pub u32);

/// A page frame, by its number from 0.
#[derive(Clone, Copy, Debug, PartialEq, Eq)]
pub struct Pfn(pub u32);

/// A section, by its number from 0 in the order of declaration.
#[derive(Clone, Copy, Debug, PartialEq, Eq)]
pub struct SecId(pub u32);

/// A virtual address, in bytes.
#[derive(Clone, Copy, Debug, PartialEq, Eq)]
pub struct Addr(pub u32);

/// Who makes an entry: process i has seat i, the writer the next number, the swapper the one after.
#[derive(Clone, Copy, Debug, PartialEq, Eq)]
pub struct Seat(pub u32);

/// A page of 512 bytes.
#[derive(Clone, Copy, Debug, PartialEq, Eq)]
pub enum Page {
    /// A process's own page, by its first address divided by 512.
    Private(Proc, u32),
    /// A page of a shared section, by its number in the section.
    Shared(SecId, u32),
}

/// A block of 512 bytes on the disk.
#[derive(Clone, Copy, Debug, PartialEq, Eq)]
pub enum BlockId {
    /// A section's block, by the number of its page.
    Section(SecId, u32),
    /// A block of the page file.
    PageFile(u32),
    /// The swap block of a process's ring slot.
    Swap(Proc, u32),
}

/// The state of a page frame: the location code in its row of the PFN database. Source: Kenah and
/// Bate, the PFN database.
#[derive(Clone, Copy, Debug, PartialEq, Eq)]
pub enum FrameState {
    /// On the free page list, empty or still with the bytes of a page that isn't modified.
    Free,
    /// On the modified page list: its bytes are to be written before it is used again.
    Modified,
    /// Taken out of use at the start, with a memory error.
    Bad,
    /// Shared by no process any more, while a write of its bytes hasn't ended (release pending).
    ReleasePending,
    /// Its read failed, and it hasn't been given up yet (read error).
    ReadError,
    /// Being written to a block by the modified page writer, and shared by no process (write in
    /// progress).
    Writing,
    /// Being read from a block (read in progress).
    Reading,
    /// Valid in a working set (active).
    Active,
}

/// Where a process stands with the swapper, which moves whole working sets out of memory and back.
#[derive(Clone, Copy, Debug, PartialEq, Eq)]
pub enum ProcStatus {
    /// Its working set is in memory (RESIDENT).
    Resident,
    /// Its working set is being written to its swap blocks (outswap).
    Leaving,
    /// Its working set is out of memory.
    Gone,
    /// Its working set is being read back (inswap).
    Coming,
}

impl ProcStatus {
    ghost use Rattle.std.specs.Prelude.{◌≡◌};
    ghost use Rattle.vm_types.specs.Status.{is_coming, is_leaving, is_resident};

    /// Whether its working set is in memory.
    pub fn is_resident(self) -> bool
        ensures { result ≡ is_resident self }
    {
        matches!(self, ProcStatus::Resident)
    }

    /// Whether its working set is being written to its swap blocks.
    pub fn is_leaving(self) -> bool
        ensures { result ≡ is_leaving self }
    {
        matches!(self, ProcStatus::Leaving)
    }

    /// Whether its working set is being read back.
    pub fn is_coming(self) -> bool
        ensures { result ≡ is_coming self }
    {
        matches!(self, ProcStatus::Coming)
    }
}
