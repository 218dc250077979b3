use vm_types::Page;

/// The row of a page frame in a dump.
#[derive(Clone, Copy, Debug, PartialEq, Eq)]
pub struct FrameRec {
    /// The code of its state, 0 to 7.
    pub state: u8,
    /// Whether the page was changed since it was read or written.
    pub modify: bool,
    /// The page that it holds.
    pub page: Option<Page>,
    /// The reference count.
    pub refs: u32,
    /// The share count.
    pub shares: u32,
}

/// A slot of a working set list in a dump.
#[derive(Clone, Copy, Debug, PartialEq, Eq)]
pub struct SlotRec {
    /// Whether a page is in it.
    pub filled: bool,
    /// Whether its page is locked in the working set.
    pub locked: bool,
    /// Whether its page is in use by a transfer or a service.
    pub pinned: bool,
    /// The page's first address divided by 512, 0 if the slot is empty.
    pub vpn: u32,
}

/// A process in a dump.
#[derive(Debug, Drop)]
pub struct ProcRec {
    /// 0 resident, 1 leaving, 2 gone, 3 coming.
    pub status: u8,
    /// The slot that the hand stands on.
    pub hand: u32,
    /// The working set limit, in pages.
    pub limit: u32,
    /// The slots of its working set list, 1 to 1024.
    pub slots: Vec<SlotRec>,
    /// Its valid pages with the words of their page table entries, by ascending page number.
    pub words: Vec<(u32, u32)>,
}

/// What a dump holds.
#[derive(Debug, Drop)]
pub struct Dump {
    /// The page frames, 8 to 16,384.
    pub frames: Vec<FrameRec>,
    /// The free page list, frame numbers from its front on.
    pub free: Vec<u32>,
    /// The modified page list, frame numbers from its front on.
    pub modified: Vec<u32>,
    /// The page file's size, in blocks.
    pub size: u32,
    /// How many of its blocks are charged.
    pub charged: u32,
    /// How many of its blocks are assigned.
    pub assigned: u32,
    /// The processes, 1 to 16.
    pub procs: Vec<ProcRec>,
    /// The frames with an open transfer, ascending.
    pub flights: Vec<u32>,
}
