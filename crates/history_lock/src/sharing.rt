use crate::lock::HistoryLock;
use crate::pass::Pass;
use vm_journal::Kept;

fn is_sync<X: Sync>(_: &X) {}

fn is_send<X: Send>(_: &X) {}

/// Threads may share a lock, and a lock may be moved to another thread.
pub fn lock_is_shared<T: Kept + Send + Drop>(lock: &HistoryLock<T>) {
    is_sync(lock);
    is_send(lock);
}

/// A pass may be moved to another thread.
pub fn pass_is_moved<T: Kept + Send + Drop>(pass: &Pass<T>) {
    is_send(pass);
}
