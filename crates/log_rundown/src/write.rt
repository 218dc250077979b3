use vm_types::{BlockId, Pfn};

/// A write of a cluster: the frame, and the block to which its page is written.
#[derive(Clone, Copy, Debug)]
pub(crate) struct Write {
    pub(crate) frame: Pfn,
    pub(crate) block: BlockId,
}
