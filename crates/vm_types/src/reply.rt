/// Why a reference is refused.
#[derive(Clone, Copy, Debug, PartialEq, Eq)]
pub enum Why {
    /// The address is mapped to nothing: an access violation by length.
    Unmapped,
    /// The page's protection code doesn't allow it in this mode: an access violation.
    Protected,
    /// The page needs a block of the page file, and as many pages are charged as it has blocks.
    PageFileFull,
    /// The transfer that it waited for failed.
    DiskFault,
}

/// The reply to a reference: the value read, that it was written, the old longword, or a refusal.
#[derive(Clone, Copy, Debug, PartialEq, Eq)]
pub enum Reply {
    /// The bytes read, the least significant first, as a number below 2^8, 2^16 or 2^32 by the width.
    Value(u32),
    /// The value was written.
    Written,
    /// The longword before an add.
    Old(u32),
    /// Nothing was read or written.
    Refused(Why),
}

/// The answer to a service.
#[derive(Clone, Copy, Debug, PartialEq, Eq)]
pub enum Answer {
    /// It was done (SS$_NORMAL). `OK` in a line.
    Good,
    /// It was done, for so many pages. `OK` and the count in a line.
    Count(u32),
    /// A page of the range is mapped already.
    InUse,
    /// A page of the range isn't mapped.
    Unmapped,
    /// More pages would be locked in the working set or in memory than the process may lock.
    LockLimit,
    /// The working set limit is below the locked pages and two, or above the extent.
    BadLimit,
    /// A transfer that it waited for failed.
    DiskFault,
}
