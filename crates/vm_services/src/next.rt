use vm_types::Answer;

/// Why a service can't go on now. Nothing was made.
#[derive(Clone, Copy, Debug, PartialEq, Eq)]
pub enum ServeWhy {
    /// The process isn't resident.
    NotResident,
    /// A private page of the range that is deleted is in a frame with an open transfer.
    InFlight,
    /// The page to be evicted would go to the modified list, which is at its wait limit.
    ModifiedFull,
}

/// How far a service came.
#[derive(Clone, Copy, Debug, PartialEq, Eq)]
pub enum ServeNext {
    /// It was answered.
    Answered(Answer),
    /// A page of its range was evicted, and the call is to be made again.
    More,
    /// It can't go on now.
    Again(ServeWhy),
    /// There is no room for the entries that it may need: memory is to be reserved first.
    Room,
}
