/// Why a request was not asked, or not to its end.
#[derive(Clone, Copy, Debug, PartialEq, Eq)]
pub enum AskFault {
    /// The process isn't one of the configuration.
    NoProcess,
    /// The request isn't well formed: its address, its range, its protection code or its value.
    NotFormed,
    /// The configuration's version has no such service.
    NotOfVersion,
    /// The body has as many requests as the version allows.
    Full,
    /// Memory ran out before anything was made.
    NoMemory,
    /// Memory ran out amid the moves of this request or of an earlier one: the pager has stopped.
    Stopped,
}
