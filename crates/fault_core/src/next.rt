use vm_types::Reply;

/// Why a process can't go on now. Nothing was made.
#[derive(Clone, Copy, Debug, PartialEq, Eq)]
pub enum AgainWhy {
    /// The process isn't resident.
    NotResident,
    /// Its page is being read by another seat, as its last collision says.
    Collided,
    /// The block from which the page is to be read is in a transfer.
    BlockBusy,
    /// Each block of the page file is charged, one of them to a page that is still being read for the
    /// first time.
    Charging,
    /// The page to be replaced would go to the modified list, which is at its wait limit.
    ModifiedFull,
    /// The free list is empty.
    NoFrame,
}

/// How far a reference came.
#[derive(Clone, Copy, Debug, PartialEq, Eq)]
pub enum Next {
    /// It was answered, or refused.
    Answered(Reply),
    /// Reads were begun, which are to be carried and landed before it goes on.
    Carry,
    /// An entry was made, and the call is to be made again.
    More,
    /// It can't go on now.
    Again(AgainWhy),
    /// There is no room for the entries that it may need: memory is to be reserved first.
    Room,
}
