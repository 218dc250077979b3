ghost use Rattle.std.specs.Prelude.{◌≡◌};
ghost use Rattle.std.specs.Borrow.{sem};
ghost use Rattle.history_lock.specs.Lent.{LendsValue};
ghost use Rattle.history_lock.specs.Values.{value_of};

/// A turn at a lock: it holds the lock's value, and ends in `leave`. It can't be dropped.
pub struct Turn<T> {
    pub(crate) value: Box<T>,
    /// How many entries the journal had at `enter`.
    pub(crate) found: usize,
}

impl<T> Turn<T> {
    /// The value. Doesn't allocate.
    pub fn value(&self) -> &T
        ensures { result.now ≡ value_of self.now }
    {
        self.value.as_ref()
    }

    /// The value, to be changed. Doesn't allocate.
    pub fn value_mut(&mut self) -> &mut T
        ensures* writes_back { sem 𝓛 (LendsValue T.row self.entry result) }
        ensures value { result.now ≡ value_of self.old }
    {
        self.value.as_mut()
    }
}
