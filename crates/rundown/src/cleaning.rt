use vm_types::Proc;

/// Where the rundown is between two moves.
#[derive(Clone, Copy, Debug, PartialEq, Eq)]
pub enum Cleaning {
    /// At a slot of a process, and whether the carrier for its eviction has failed. Any numbers.
    Evicting {
        process: Proc,
        slot: u32,
        failed: bool,
    },
    /// In the rounds of writing: how many rounds follow, and how many lifts are left in this one.
    Rounds {
        following: u32,
        left: u32,
    },
}
