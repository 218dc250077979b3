use std::collections::LinkedList;
use vm_journal::Entry;

/// Where a pass stands. No value of it is made.
pub enum Stage {
    /// It has no ticket.
    Idle,
    /// It has no ticket, and is counted among those that sleep until a turn ends.
    Sleeping,
    /// It took in another pass, which had seen this journal. The first numbers are those that it had
    /// itself, and the others those that the other pass brought.
    Joined(LinkedList<Entry>, LinkedList<u32>, LinkedList<u32>),
    /// It has this ticket, and its turn hasn't come.
    Waiting(u64),
    /// Its turn has come, and it holds the value.
    Holding(u64),
    /// It has told the journal's new length, and still holds the value.
    Published(u64),
    /// Another pass has taken it in.
    Spent,
}
