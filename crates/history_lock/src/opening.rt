use std::snapshot::Snapshot;

/// What the lock was made from.
#[derive(Drop)]
pub struct Opening<T> {
    /// The first value.
    pub value: Snapshot<T>,
    /// The number of passes.
    pub passes: u32,
}
