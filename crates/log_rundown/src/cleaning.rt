use vm_types::Proc;

/// Where the rundown is between two moves.
#[derive(Clone, Copy, Debug)]
pub(crate) enum Cleaning {
    /// At a slot of a process, and whether the cluster that was written for its eviction has failed.
    Evicting {
        process: Proc,
        slot: u32,
        failed: bool,
    },
    /// In the rounds of writing: how many rounds follow, and how many writes are left in this one.
    Rounds {
        following: u32,
        left: usize,
    },
}
