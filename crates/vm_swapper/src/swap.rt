/// Why a process can't go on leaving, or coming back, now. Nothing was made.
#[derive(Clone, Copy, Debug, PartialEq, Eq)]
pub enum SwapWhy {
    /// Each page that is left to leave has an open transfer, or a page is still being read back.
    InFlight,
    /// The page to be evicted would go to the modified list, which is at its wait limit.
    ModifiedFull,
    /// The free list is empty.
    NoFrame,
}

/// How far a process came that leaves memory, or comes back.
#[derive(Clone, Copy, Debug, PartialEq, Eq)]
pub enum Swap {
    /// Transfers were begun, which are to be carried and landed before it goes on.
    Carry,
    /// An entry was made, and the call is to be made again.
    More,
    /// The process that leaves is gone, or the one that comes back is resident.
    Settled,
    /// It can't go on now.
    Again(SwapWhy),
    /// There is no room for the entries that it may need: memory is to be reserved first.
    Room,
}
