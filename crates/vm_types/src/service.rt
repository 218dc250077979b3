use crate::names::Addr;
use crate::reference::Ref;

/// A memory management service: its range begins at `at` and has `pages` pages.
#[derive(Clone, Copy, Debug, PartialEq, Eq)]
pub enum Service {
    /// Maps demand zero pages with a protection code: `CRETVA` ($CRETVA).
    Create { at: Addr, pages: u32, prot: u8 },
    /// Unmaps the pages and forgets their bytes: `DELTVA` ($DELTVA).
    Delete { at: Addr, pages: u32 },
    /// Sets the pages' protection code: `SETPRT` ($SETPRT).
    Protect { at: Addr, pages: u32, prot: u8 },
    /// Locks the valid pages in the working set: `LKWSET` ($LKWSET).
    Lock { at: Addr, pages: u32 },
    /// Unlocks the locked pages: `ULWSET` ($ULWSET).
    Unlock { at: Addr, pages: u32 },
    /// Evicts the valid pages that are neither locked nor pinned: `PURGWS` ($PURGWS).
    Purge { at: Addr, pages: u32 },
    /// Pins the valid pages, which then stay in memory: `LCKPAG` ($LCKPAG).
    Pin { at: Addr, pages: u32 },
    /// Unpins the pinned pages: `ULKPAG` ($ULKPAG).
    Unpin { at: Addr, pages: u32 },
    /// Sets the working set limit, in pages: `ADJWSL` ($ADJWSL).
    Adjust { limit: u32 },
}

/// What a process asks for.
#[derive(Clone, Copy, Debug, PartialEq, Eq)]
pub enum Request {
    /// To read, write or add at an address.
    Reference(Ref),
    /// A memory management service.
    Service(Service),
}
