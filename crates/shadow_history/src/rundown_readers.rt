ghost use Rattle.std.specs.Prelude.{◌≡◌, ◌+◌, ◌<◌, ◌^◌, ◌∷◌, IfOk, length};
ghost use Rattle.pager_model.specs.Flights.{carrier_of};

use crate::flight::Flight;
use crate::shadow_history::ShadowHistory;
use std::alloc::Global;
use vm_journal::Entry;
use vm_types::NoMemory;

impl<'a> ShadowHistory<'a> {
    /// The open flights of an entry's seat with that entry as one more, in the order in which they were
    /// begun.
    ///
    /// # Errors
    /// `NoMemory` if out of memory.
    pub fn carrier_with(&self, alloc: Global, e: Entry) -> Result<Vec<Flight>, NoMemory>
        requires few { length self.now.past + 1 < 2 ^ 48 }
        ensures { IfOk result (λ v. v.items ≡ carrier_of (e.seat).0 (e ∷ self.now.past)) }
    {
        self.flights
            .by_seat_with(alloc, self.count + 1, e.seat, e.what)
    }
}
