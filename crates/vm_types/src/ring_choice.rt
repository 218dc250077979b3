/// The slot that a working set ring offers: an empty one, one to replace, or none.
#[derive(Clone, Copy, Debug, PartialEq, Eq)]
pub enum Choice {
    Empty(u32),
    Victim(u32),
    AllLocked,
}
