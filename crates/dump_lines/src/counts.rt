/// What the lists of a dump say of a page frame.
#[derive(Clone, Copy, Debug, PartialEq, Eq)]
pub struct Counts {
    /// Its reference count: one if it is shared, one for each open transfer on it, and one for each
    /// pinned slot whose page it holds for the slot's process.
    pub refs: u32,
    /// Its share count: how many valid entries are for it.
    pub shares: u32,
    /// How often it is on the free page list.
    pub free: u32,
    /// How often it is on the modified page list.
    pub modified: u32,
}
