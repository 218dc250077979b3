use vm_types::{Proc, Request};

/// What a seat does in its turns.
#[derive(Clone, Copy, Debug, PartialEq, Eq)]
pub enum Doing {
    /// A process asks for this.
    Asking(Proc, Request),
    /// The modified page writer writes.
    Writing,
    /// The swapper swaps.
    Swapping,
}
