ghost use Rattle.std.specs.Prelude.{◌≡◌, ◌+◌, ◌<◌, ◌≤◌, OnOk, OnErr, true};
ghost use Rattle.vm_state.specs.History.{owed};

use crate::state::State;
use disk_trait::Block;
use vm_types::NoMemory;

impl<B: Block> State<B> {
    /// How many entries are due whatever comes: two for each open transfer, and one while a frame is in
    /// read error. At least as many are spare at all times. Doesn't allocate.
    pub fn owed(&self) -> u32
        ensures { result ≡ owed self.now.past }
    {
        2 * self.in_flight + u32::from(self.failed.is_some())
    }

    /// Makes room for at least `k` entries more than are due.
    ///
    /// # Errors
    /// `NoMemory` if memory ran out, or if the journal would have more than 2^48 entries and spare
    /// places together, or 2^32 spare ones; only if fewer were spare. The state is then as before.
    pub fn reserve(&mut self, k: u32) -> Result<(), NoMemory>
        ensures room { OnOk result (owed self.new.past + k ≤ self.new.spare) }
        ensures no_memory { OnErr result (self.old.spare < owed self.old.past + k) }
        ensures err { OnErr result (self.new ≡ self.old) }
        ensures same { self.new ≡ record self.old { spare = (self.new).spare } }
        ensures no_less { self.old.spare ≤ self.new.spare }
    {
        // The proof learns here that fewer than 2^32 are spare.
        let _ = self.journal.spare();
        let owed = self.owed();
        match owed.checked_add(k) {
            Some(room) => self.journal.reserve(room),
            None => Err(NoMemory),
        }
    }
}
