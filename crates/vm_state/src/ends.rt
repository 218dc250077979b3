ghost use Rattle.std.specs.Prelude.{◌≡◌, [], map, reverse, true};
ghost use Rattle.pager_model.specs.Flights.{open_flights};

use crate::state::State;
use disk_trait::Block;
use vm_journal::Entry;
use vm_types::{BlockId, Config};

impl<B: Block> State<B> {
    ghost use Rattle.frame_store.specs.Blocks.{blocks_of};
    ghost use Rattle.vm_state.specs.Ends.{AreGivenBack};

    /// Ends the state once no transfer is open. Gives the configuration, the entries, oldest first, if they
    /// are kept, and each block of the configuration with its name, in their order. Each is counted; if the
    /// bytes of blocks are known, each has what its pages, where they aren't dirty, have. Doesn't allocate.
    pub fn finish(self) -> (Config, Vec<Entry>, Vec<(BlockId, B)>)
        requires { open_flights self.past ≡ [] }
        ensures config { result.0 ≡ self.config }
        ensures entries { self.keeps ≡ true → result.1.items ≡ reverse self.past }
        ensures names { map (λ (p : BlockId × B). p.0) result.2.items ≡ blocks_of self.config }
        ensures blocks { AreGivenBack B.seen B.tells self.config self.past result.2.items }
    {
        let State {
            config,
            journal,
            store,
            ..
        } = self;
        (config, journal.into_entries(), store.into_blocks())
    }
}
