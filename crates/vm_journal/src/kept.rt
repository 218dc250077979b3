ghost use Rattle.std.specs.Prelude.{◌≡◌, List};
ghost use Rattle.vm_journal.specs.declared.entry.Entry.{Entry};

use crate::entry::Entry;

/// A value that keeps a journal.
pub trait Kept {
    /// What the value stands on, as its configuration and the name of its pool of page buffers. A type
    /// of code, so that other values can have a field of it; no value of it need be made.
    type Base;

    /// The value's entries, oldest first.
    ghost journal: { Self → List Entry };

    /// What the value stands on, beside its entries.
    ghost base: { Self → Self.Base };

    /// The entries, oldest first. Doesn't allocate.
    fn entries(&self) -> &[Entry]
        ensures { result.now ≡ journal self.now };
}
