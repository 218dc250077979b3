/// How a write cluster went.
#[derive(Clone, Copy, Debug, PartialEq, Eq)]
pub enum Begin {
    /// Writes were begun, which are to be carried and landed.
    Carry,
    /// There is nothing to write: the modified list is empty, or short enough.
    Nothing,
    /// There is no room for the entries that it may need: memory is to be reserved first.
    Room,
}
