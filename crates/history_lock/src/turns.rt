use crate::opening::Opening;
use crate::view::View;
use atomic_table::TableRule;
use std::marker::PhantomData;
use vm_journal::Kept;

/// The rule that the lock's words, its value and all views keep. No value of it is made.
pub struct Turns<T> {
    of: PhantomData<T>,
}

impl<T: Kept> TableRule<Option<Box<T>>, View<T::Base>, Opening<T>> for Turns<T> {
    ghost use Rattle.history_lock.specs.Rule.{Serves};
    ghost use Rattle.history_lock.specs.Values.{of_box};
    ghost use Rattle.history_lock.specs.Views.{starting};

    ghost holds = { λ key. Serves (of_box T.journal) (of_box T.base) (T.base key.value.value) key.passes };

    ghost first = { λ key. starting (T.base key.value.value) key.passes };
}
