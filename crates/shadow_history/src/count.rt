use vm_types::BlockId;

/// A block, and the count of failures that its last failed transfer left.
#[derive(Clone, Copy, Debug)]
pub(crate) struct Count {
    pub(crate) block: BlockId,
    pub(crate) faults: u64,
}
