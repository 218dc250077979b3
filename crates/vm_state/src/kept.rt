use crate::base::StateBase;
use crate::state::State;
use disk_trait::Block;
use vm_journal::{Entry, Kept};

impl<B: Block> Kept for State<B> {
    ghost use Rattle.vm_state.specs.Based.{base_of, kept_entries};

    type Base = StateBase;

    ghost journal = { kept_entries };

    ghost base = { base_of };

    fn entries(&self) -> &[Entry] {
        self.journal.entries()
    }
}

fn is_send<X: Send>(_: &X) {}

/// A state may be moved to another thread.
pub fn state_is_moved<B: Block>(state: &State<B>) {
    is_send(state);
}
