use crate::view::View;
use vm_journal::Kept;

/// Lets its owner have turns at a lock, one at a time. It has seen a journal, knows what the lock's
/// value stands on, and owns numbers of seats. It has no bytes. A pass that is dropped takes its
/// numbers with it.
#[derive(Drop)]
pub struct Pass<T: Kept> {
    pub(crate) seat: atomic_table::Seat<Option<Box<T>>, View<T::Base>>,
}
