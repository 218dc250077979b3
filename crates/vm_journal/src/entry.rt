use vm_types::{
    Addr, Answer, BlockId, FrameState, Page, Pfn, Proc, ProcStatus, Ref, Reply, Seat, Service, Why,
};

/// What a read is for: a fault at a page's first address, a neighbour in its cluster, or a page
/// that comes back from its swap block.
#[derive(Clone, Copy, Debug, PartialEq, Eq)]
pub enum Role {
    /// A page fault of the process at this address, the first of its page.
    Fault(Proc, Addr),
    /// The page in the next block, read in the same cluster.
    Near(Page),
    /// A page of the working set of a process that comes back, by its first address (inswap).
    Come(Proc, Addr),
}

/// Why a page leaves a working set.
#[derive(Clone, Copy, Debug, PartialEq, Eq)]
pub enum EvictWhy {
    /// Its slot is the victim of a fault at the working set limit.
    Replace,
    /// It was asked for by `PURGWS`.
    Purge,
    /// It is deleted, by `DELTVA`.
    Delete,
    /// Its process leaves memory (outswap).
    Leave,
    /// The run is over, and the page of a shared section is to be written.
    Rundown,
}

/// A database change: one of sixteen kinds. `k` is the number of the entry that began the
/// transfer, `c` and `d` are the block's count of failures before and after it.
#[derive(Clone, Copy, Debug, PartialEq, Eq)]
pub enum What {
    /// A reference is answered.
    Done {
        r: Ref,
        reply: Reply,
    },
    /// A reference is refused.
    Denied {
        r: Ref,
        why: Why,
    },
    /// A service is answered.
    Served {
        s: Service,
        answer: Answer,
    },
    /// A frame gives up the page that it holds.
    Reuse {
        f: Pfn,
        page: Page,
    },
    /// A demand zero page gets its first frame.
    Zero {
        a: Addr,
        f: Pfn,
    },
    /// A page in a frame becomes valid.
    Back {
        p: Proc,
        a: Addr,
        f: Pfn,
        from: FrameState,
    },
    /// A fault meets another seat's read of its page.
    Collide {
        a: Addr,
        f: Pfn,
        k: u64,
    },
    /// A read of a block begins.
    In {
        f: Pfn,
        block: BlockId,
        role: Role,
    },
    /// It succeeded.
    InOk {
        f: Pfn,
        k: u64,
    },
    /// It failed.
    InFail {
        f: Pfn,
        k: u64,
        c: u64,
        d: u64,
    },
    /// A write to a block begins.
    Out {
        f: Pfn,
        block: BlockId,
    },
    /// It succeeded.
    OutOk {
        f: Pfn,
        k: u64,
    },
    /// It failed.
    OutFail {
        f: Pfn,
        k: u64,
        c: u64,
        d: u64,
    },
    /// A page leaves a working set, and its frame goes to this state.
    Evict {
        p: Proc,
        a: Addr,
        f: Pfn,
        why: EvictWhy,
        to: FrameState,
    },
    /// A working set limit is adjusted.
    Limit {
        n: u32,
        faults: u64,
    },
    /// A process changes its status.
    Turn {
        p: Proc,
        status: ProcStatus,
    },
}

/// The sixteen kinds of database change.
#[derive(Clone, Copy, Debug, PartialEq, Eq)]
pub enum Kind {
    /// `DONE` in a line.
    Done,
    /// `DENIED` in a line.
    Denied,
    /// `SERVED` in a line.
    Served,
    /// `REUSE` in a line.
    Reuse,
    /// `ZERO` in a line.
    Zero,
    /// `BACK` in a line.
    Back,
    /// `COLLIDE` in a line.
    Collide,
    /// `IN` in a line.
    In,
    /// `INOK` in a line.
    InOk,
    /// `INFAIL` in a line.
    InFail,
    /// `OUT` in a line.
    Out,
    /// `OUTOK` in a line.
    OutOk,
    /// `OUTFAIL` in a line.
    OutFail,
    /// `EVICT` in a line.
    Evict,
    /// `LIMIT` in a line.
    Limit,
    /// `TURN` in a line.
    Turn,
}

/// What a seat did.
#[derive(Clone, Copy, Debug, PartialEq, Eq)]
pub struct Entry {
    pub seat: Seat,
    pub what: What,
}
