use crate::stage::Stage;
use std::collections::LinkedList;
use vm_journal::Entry;

/// What a pass knows. No value of it is made.
pub struct View<B> {
    /// Where the pass stands.
    pub stage: Stage,
    /// The journal that it has seen.
    pub seen: LinkedList<Entry>,
    /// The numbers of the seats that it owns.
    pub numbers: LinkedList<u32>,
    /// What the lock's value stands on; none of a spent pass.
    pub base: Option<B>,
}
