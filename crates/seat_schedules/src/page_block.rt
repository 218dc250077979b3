use vm_types::{BlockId, Page};

/// What is known of a block of the page file: the page that it is assigned to, and the block in which
/// that page lies.
#[derive(Clone, Copy, Debug, PartialEq, Eq)]
pub struct PageBlock {
    pub page: Option<Page>,
    pub lies: Option<BlockId>,
}
