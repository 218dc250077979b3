ghost use Rattle.std.specs.Prelude.{◌≡◌, ◌<◌, find, count_by, nat_eq};
ghost use Rattle.std.specs.Option.{option_map};
ghost use Rattle.vm_types.specs.Configuration.{IsBlock};
ghost use Rattle.pager_model.specs.Flights.{open_flights};
ghost use Rattle.pager_model.specs.Transfers.{has_come, is_on_block, is_read_on};
ghost use Rattle.vm_state.specs.FlightReadings.{read_by};

use crate::state::State;
use disk_trait::Block;
use state_pages::{OpenRead, any_comes};
use vm_types::{BlockId, Pfn, Proc};

/// No reader allocates.
impl<B: Block> State<B> {
    /// The open read of a frame of the configuration; none if none is open on it.
    pub fn read_on(&self, f: Pfn) -> Option<OpenRead>
        requires { f.0 < self.now.config.frames }
        ensures { result ≡ option_map read_by (find (is_read_on f.0) (open_flights self.now.past)) }
    {
        self.roles[f.0 as usize]?;
        let start = self.store.flight(f)?;
        let seat = self.journal.seat_of(start);
        Some(OpenRead { seat, start })
    }

    /// Whether a page of a process (any number) is being read back from its swap block. Looks at each
    /// frame if some transfer is open.
    pub fn has_come(&self, p: Proc) -> bool
        ensures { result ≡ has_come p.0 (open_flights self.now.past) }
    {
        self.in_flight > 0 && any_comes(&self.roles, p)
    }

    /// Whether no open transfer is on a block of the configuration.
    pub fn home(&self, id: BlockId) -> bool
        requires { IsBlock self.now.config id }
        ensures { result ≡ nat_eq (count_by (is_on_block id) (open_flights self.now.past)) 0 }
    {
        self.store.home(id)
    }
}
