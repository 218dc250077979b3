/// Where the bytes of a page lie, and whether they are kept.
#[derive(Clone, Copy, Debug)]
pub struct Slot {
    /// The number of the row that has them.
    pub at: usize,
    pub kept: bool,
}
