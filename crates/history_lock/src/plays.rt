//! What each step on the lock's words tells, and how views are cut and joined.
ghost use Rattle.history_lock.specs.Plays.{slept, rose, took, looked, published, passed, settled};
ghost use Rattle.history_lock.specs.Values.{of_box};
ghost use Rattle.history_lock.specs.Views.{kept, given, merged, gone};

use crate::view::View;
use atomic_table::{Join, Play, Split};
use std::marker::PhantomData;
use vm_journal::Kept;

/// Counts the pass among those that sleep.
pub(crate) struct Sleep;

impl<T, B> Play<Option<Box<T>>, View<B>> for Sleep {
    ghost then = { slept };
}

/// Counts it there no longer.
pub(crate) struct Rise;

impl<T, B> Play<Option<Box<T>>, View<B>> for Rise {
    ghost then = { rose };
}

/// Takes a ticket.
pub(crate) struct Take;

impl<T, B> Play<Option<Box<T>>, View<B>> for Take {
    ghost then = { took };
}

/// Looks at the ticket that is served, and takes the value if it is the pass's own.
pub(crate) struct Look<T> {
    of: PhantomData<T>,
}

impl<T: Kept> Play<Option<Box<T>>, View<T::Base>> for Look<T> {
    ghost then = { looked (of_box T.journal) (of_box T.base) };
}

/// Publishes the journal's new length.
pub(crate) struct Publish<T> {
    of: PhantomData<T>,
}

impl<T: Kept> Play<Option<Box<T>>, View<T::Base>> for Publish<T> {
    ghost then = { published (of_box T.journal) };
}

/// Passes the turn on, and gives the value back.
pub(crate) struct PassOn;

impl<T, B> Play<Option<Box<T>>, View<B>> for PassOn {
    ghost then = { passed };
}

/// Finds which of two journals is the longer, after a join.
pub(crate) struct Settle;

impl<T, B> Play<Option<Box<T>>, View<B>> for Settle {
    ghost then = { settled };
}

/// Leaves a pass its first number, and gives the others to a new one.
pub(crate) struct Cut;

impl<B> Split<View<B>> for Cut {
    ghost left = { kept };

    ghost right = { given };
}

/// Gives one pass the numbers and the journal of another.
pub(crate) struct Glue;

impl<B> Join<View<B>> for Glue {
    ghost both = { merged };

    ghost spent = { gone };
}
