ghost use Rattle.std.specs.Prelude.{◌≡◌, [], ◌∷◌, List};
ghost use Rattle.std.specs.Borrow.{ftrue};
ghost use Rattle.shadow_tables.specs.declared.changes.Change.{Change};

use std::marker::Model;
use vm_types::{BlockId, Page, Pfn, Proc};

/// How a list changes of which only proofs keep the items.
#[derive(Clone, Copy, Debug)]
pub enum Change {
    /// The page is put in front.
    Put(Page),
    /// The page is taken away, or its block is free.
    Taken(Page),
    /// The page gets this block of the page file.
    Given(Page, u32),
    /// The entry of the process for the page becomes valid, with this frame.
    Entered(Proc, u32, Pfn),
    /// It is valid no more.
    Left(Proc, u32),
    /// The page lies in this block, or nowhere.
    Laid(Page, Option<BlockId>),
}

/// A list of changes, the newest first, that only proofs read. Takes no memory.
#[derive(Drop)]
pub struct Changes {
    pub ghost list: { List Change },
}

impl Model for Changes {
    ghost also_owns = { λ _. ftrue };
}

impl Changes {
    /// No changes.
    pub fn new() -> Changes
        ensures { result.list ≡ [] }
    {
        Changes {}
    }

    /// One more.
    pub fn then(&self, _change: &Change) -> Changes
        ensures { result.list ≡ _change.now ∷ self.now.list }
    {
        Changes {}
    }
}
