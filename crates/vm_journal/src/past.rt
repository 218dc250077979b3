ghost use Rattle.std.specs.Prelude.{◌≡◌, [], ◌∷◌, List};
ghost use Rattle.std.specs.Borrow.{ftrue};
ghost use Rattle.vm_journal.specs.declared.entry.Entry.{Entry};

use crate::entry::Entry;
use std::marker::Model;

/// A list of entries, the newest first, that only proofs read. Takes no memory.
#[derive(Drop)]
pub struct Past {
    pub ghost entries: { List Entry },
}

impl Model for Past {
    ghost also_owns = { λ _. ftrue };
}

impl Past {
    /// No entries.
    pub fn new() -> Past
        ensures { result.entries ≡ [] }
    {
        Past {}
    }

    /// One more.
    pub fn then(&self, _e: &Entry) -> Past
        ensures { result.entries ≡ _e.now ∷ self.now.entries }
    {
        Past {}
    }
}

unsafe impl Send for Past {}
