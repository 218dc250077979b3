ghost use Rattle.std.specs.Prelude.{◌≡◌};
ghost use Rattle.run_commands.specs.Tallies.{counts_in};

/// How many entries there are of each kind that is counted.
#[derive(Clone, Copy)]
pub(crate) struct Counts {
    /// References that are answered.
    pub done: u64,
    /// References that are refused.
    pub denied: u64,
    /// Demand zero pages that get their first frame.
    pub zeros: u64,
    /// Pages in a frame that become valid.
    pub backs: u64,
    /// Reads of a block that begin.
    pub reads: u64,
    /// Writes to a block that begin.
    pub writes: u64,
    /// Pages that leave a working set.
    pub evictions: u64,
    /// Changes of a process's status.
    pub turns: u64,
    /// Adjustments of a working set limit.
    pub limits: u64,
}

/// The counts that the tallies give.
pub(crate) fn counts_in(tallies: &[u64; 16]) -> Counts
    ensures { result ≡ counts_in tallies.now }
{
    Counts {
        done: tallies[0],
        denied: tallies[1],
        zeros: tallies[4],
        backs: tallies[5],
        reads: tallies[7],
        writes: tallies[10],
        evictions: tallies[13],
        turns: tallies[15],
        limits: tallies[14],
    }
}
