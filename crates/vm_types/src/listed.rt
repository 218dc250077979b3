ghost use Rattle.std.specs.Prelude.{◌≡◌, [], ◌∷◌, ◌++◌, OnOk, OnErr};
ghost use Rattle.std.specs.Borrow.{sem};

use crate::faults::NoMemory;
use std::alloc::Global;
use std::marker::Model;

/// A list of items, which contracts see as that list.
#[derive(Debug, Drop)]
pub struct Listed<X> {
    inner: Vec<X>,
}

impl<X> Model for Listed<X> {
    ghost use Rattle.std.specs.Prelude.{List};

    ghost Value = { List X };

    ghost view = { λ l. l.inner.items };
}

impl<X> Listed<X> {
    ghost use Rattle.vm_types.specs.Loan.{LendsItems};

    /// No items. Takes no memory.
    pub fn new(alloc: Global) -> Listed<X>
        ensures { result ≡ [] }
    {
        Listed {
            inner: Vec::new(alloc),
        }
    }

    /// These items. Takes no memory.
    pub fn of(items: Vec<X>) -> Listed<X>
        ensures { result ≡ items.items }
    {
        Listed { inner: items }
    }

    /// Adds one at the end.
    ///
    /// # Errors
    /// `NoMemory` for want of memory; the list is then as before.
    pub fn push(&mut self, x: X) -> Result<(), NoMemory>
    where
        X: Drop,
        ensures ok { OnOk result (self.new ≡ self.old ++ x ∷ []) }
        ensures err { OnErr result (self.new ≡ self.old) }
    {
        if self.inner.len() == self.inner.capacity() {
            self.inner.try_reserve(1)?;
        }
        self.inner.push_reserved(x);
        Ok(())
    }

    /// The items in order.
    pub fn items(&self) -> &[X]
        ensures { result.now ≡ self.now }
    {
        self.inner.as_slice()
    }

    /// The items in order, to be written. Takes no memory.
    pub fn items_mut(&mut self) -> &mut [X]
        ensures* writes_back { sem 𝓛 (LendsItems X.row self.entry result) }
        ensures value { result.now ≡ self.old }
    {
        self.inner.as_mut_slice()
    }

    /// Gives the items back. Takes no memory.
    pub fn into_items(self) -> Vec<X>
        ensures { result.items ≡ self }
    {
        self.inner
    }
}
