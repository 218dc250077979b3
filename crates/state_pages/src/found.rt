use vm_types::{BlockId, Origin, Page, Pfn, Seat};

/// What a process has at a page number: the page, what is behind it, its protection code, and whether
/// its entry is valid.
#[derive(Clone, Copy, Debug, PartialEq, Eq)]
pub struct Found {
    pub page: Page,
    pub from: Origin,
    pub prot: u8,
    pub valid: bool,
}

/// Where a page is: whether it is charged to the page file, the block in which it lies, the block of
/// the page file that is assigned to it, and the frame that holds it.
#[derive(Clone, Copy, Debug, PartialEq, Eq)]
pub struct Backing {
    pub charged: bool,
    pub lies: Option<BlockId>,
    pub assigned: Option<u32>,
    pub frame: Option<Pfn>,
}

/// A page in a slot of a working set: its number, the frame of its entry, and whether it is locked
/// there, and pinned in memory.
#[derive(Clone, Copy, Debug, PartialEq, Eq)]
pub struct Slot {
    pub vpn: u32,
    pub frame: Pfn,
    pub locked: bool,
    pub pinned: bool,
}

/// A read that hasn't landed: the seat that began it, and the number of the entry that did.
#[derive(Clone, Copy, Debug, PartialEq, Eq)]
pub struct OpenRead {
    pub seat: Seat,
    pub start: u64,
}
