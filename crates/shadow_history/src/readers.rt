ghost use Rattle.std.specs.Prelude.{◌≡◌, ◌↔◌, ◌+◌, ◌<◌, ◌∷◌, [], IsTrue, is_some, length, find, count_by};
ghost use Rattle.pager_model.specs.Carrier.{HasLost, carrying};
ghost use Rattle.pager_model.specs.Counted.{last_count};
ghost use Rattle.pager_model.specs.Flights.{awaits_reuse, failed_flight, is_busy, open_flights};
ghost use Rattle.pager_model.specs.Order.{IsAnswered, IsInOrder};
ghost use Rattle.pager_model.specs.Transfers.{has_come, is_on_block, reads_on, starts, writes_on};

use crate::carriers::carrier_at;
use crate::carrying::Carrying;
use crate::counts::count_in;
use crate::flight::Flight;
use crate::shadow_history::ShadowHistory;
use crate::spoken;
use vm_journal::Entry;
use vm_types::{BlockId, Config, Pfn, Proc, Seat};

/// No reader allocates. A reader looks at no more than the open flights, the blocks that have failed, or
/// the processes.
impl<'a> ShadowHistory<'a> {
    /// The configuration.
    pub fn config(&self) -> &'a Config
        ensures { result.now ≡ self.now.config }
    {
        self.config
    }

    /// How many entries there are.
    pub fn count(&self) -> u64
        ensures { result ≡ length self.now.past }
    {
        self.count
    }

    /// The open flight that began in the entry of this number.
    pub fn flight(&self, k: u64) -> Option<Flight>
        ensures { result ≡ find (starts k) (open_flights self.now.past) }
    {
        self.flights.find(k)
    }

    /// The read whose failure is the newest entry.
    pub fn failed(&self) -> Option<Flight>
        ensures flight { result ≡ failed_flight self.now.past }
        ensures waits { is_some result ≡ awaits_reuse self.now.past }
    {
        self.failed
    }

    /// Whether the newest entry is the failure of a read, whose frame awaits its reuse.
    pub fn awaits_reuse(&self) -> bool
        ensures { result ≡ awaits_reuse self.now.past }
    {
        self.failed.is_some()
    }

    /// Whether no flight is open.
    pub fn is_landed(&self) -> bool
        ensures { IsTrue result ↔ (open_flights self.now.past ≡ []) }
    {
        self.flights.is_empty()
    }

    /// Whether a seat has an open flight.
    pub fn is_busy(&self, seat: Seat) -> bool
        ensures { result ≡ is_busy seat.0 (open_flights self.now.past) }
    {
        self.flights.is_busy(seat)
    }

    /// How many reads are open on a frame.
    pub fn reads_on(&self, f: Pfn) -> usize
        ensures { result ≡ reads_on f.0 (open_flights self.now.past) }
    {
        self.flights.reads_on(f)
    }

    /// How many writes are open on a frame.
    pub fn writes_on(&self, f: Pfn) -> usize
        ensures { result ≡ writes_on f.0 (open_flights self.now.past) }
    {
        self.flights.writes_on(f)
    }

    /// How many flights are open on a frame.
    pub fn flights_on(&self, f: Pfn) -> usize
        ensures { result ≡ reads_on f.0 (open_flights self.now.past) + writes_on f.0 (open_flights self.now.past) }
    {
        self.flights.flights_on(f)
    }

    /// Whether no flight is open on a block.
    pub fn is_still(&self, block: BlockId) -> bool
        ensures { IsTrue result ↔ (count_by (is_on_block block) (open_flights self.now.past) ≡ 0) }
    {
        self.flights.is_still(block)
    }

    /// Whether a page of a process is coming.
    pub fn has_come(&self, p: Proc) -> bool
        ensures { result ≡ has_come p.0 (open_flights self.now.past) }
    {
        self.flights.has_come(p)
    }

    /// The last carrier of a process, the writer or the swapper.
    pub fn carrying(&self, seat: Seat) -> Carrying
        requires { seat.0 < length self.now.config.procs + 2 }
        ensures { result ≡ carrying seat.0 self.now.past }
    {
        carrier_at(&self.carriers, seat)
    }

    /// Whether the last carrier of a process, the writer or the swapper is lost, and its seat hasn't
    /// spoken since it began.
    pub fn has_lost(&self, seat: Seat) -> bool
        requires { seat.0 < length self.now.config.procs + 2 }
        ensures { IsTrue result ↔ HasLost self.now.past seat.0 }
    {
        let row = carrier_at(&self.carriers, seat);
        row.is_lost() && !row.has_spoken()
    }

    /// The count that the last failure of a flight on the block left, 0 if there is none.
    pub fn last_count(&self, block: BlockId) -> u64
        ensures { result ≡ last_count block self.now.past }
    {
        count_in(&self.counts, block)
    }

    /// Whether what each process has been answered is still the first of what it asks for, with one
    /// more entry, if it is without it.
    pub fn keeps_order(&self, e: Entry) -> bool
        ensures { IsInOrder self.now.config self.now.past → (IsTrue result ↔ IsInOrder self.now.config (e ∷ self.now.past)) }
    {
        let Some(request) = spoken::request_of(e.what) else {
            return true;
        };
        match self.orders.first(e.seat) {
            Some(next) => spoken::is_same(next, request),
            None => false,
        }
    }

    /// Whether each process has been answered all that it asks for, if it was answered in order.
    pub fn is_answered(&self) -> bool
        ensures { IsInOrder self.now.config self.now.past → (IsTrue result ↔ IsAnswered self.now.config self.now.past) }
    {
        self.orders.is_empty()
    }
}
