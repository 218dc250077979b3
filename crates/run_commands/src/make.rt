/// Which trace to make.
#[derive(Clone, Copy, Debug, PartialEq, Eq)]
pub struct Make {
    /// The state in which the generator begins.
    pub seed: u32,
    /// Processes, 1 to 16.
    pub procs: u32,
    /// References, 1 to 100,000.
    pub refs: u32,
}
