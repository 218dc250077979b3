use crate::eviction::Eviction;
use vm_types::Proc;

/// The rundown's next move.
#[derive(Clone, Copy, Debug)]
pub(crate) enum Choice {
    /// A page leaves its working set; the next slot of its process is looked at after it.
    EvictsPage(Eviction, u32),
    /// A cluster is written before the page in this slot of the process can leave.
    WritesBefore(Proc, u32),
    /// A cluster of a round is written: how many rounds follow, and how many writes were left.
    WritesRound(u32, usize),
    /// None.
    Rests,
}
