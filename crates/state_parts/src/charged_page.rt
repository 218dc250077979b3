use vm_types::BlockId;

/// What is kept of a charged page: whether it was touched, the block in which it lies, and the page
/// file block that is assigned to it.
#[derive(Clone, Copy, Debug)]
pub struct ChargedPage {
    pub touched: bool,
    pub lies: Option<BlockId>,
    pub assigned: Option<u32>,
}
