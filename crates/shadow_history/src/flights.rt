ghost use Rattle.std.specs.Prelude.{◌≡◌, ◌+◌, [], length, filter, find, count_by, nat_eq, reverse, IfOk, IsSome, OnOk, OnErr};
ghost use Rattle.pager_model.specs.Flights.{begun_by, flights_with, is_busy, without_flight};
ghost use Rattle.pager_model.specs.Transfers.{has_come, is_by, is_on_block, reads_on, starts, writes_on};
ghost use Rattle.shadow_history.specs.Landed.{failed_read_in, landed_flight};

use crate::flight::Flight;
use crate::open;
use std::alloc::Global;
use std::marker::Model;
use vm_journal::What;
use vm_types::{BlockId, NoMemory, Pfn, Proc, Seat};

/// The transfers that have begun and haven't landed, which contracts see as that list, the newest
/// first.
#[derive(Debug, Drop)]
pub(crate) struct Flights {
    open: Vec<Flight>,
}

impl Model for Flights {
    ghost use Rattle.std.specs.Prelude.{List};
    ghost use Rattle.pager_model.specs.Flights.{Flight};

    ghost Value = { List Flight };

    ghost view = { λ x. x.open.items };
}

impl Flights {
    /// None. Doesn't allocate.
    pub(crate) fn new(alloc: Global) -> Flights
        ensures { result ≡ [] }
    {
        Flights {
            open: Vec::new(alloc),
        }
    }

    /// The flights after an entry of this number.
    ///
    /// # Errors
    /// `NoMemory` if out of memory; the flights are then as before.
    pub(crate) fn add(&mut self, number: u64, seat: Seat, what: What) -> Result<(), NoMemory>
        ensures ok { OnOk result (self.new ≡ flights_with number seat.0 what self.old) }
        ensures err { OnErr result (self.new ≡ self.old) }
        ensures begins { OnErr result (IsSome (begun_by number seat.0 what)) }
    {
        if let Some(x) = Flight::begun_by(number, seat, what) {
            self.open.insert(0, x)?;
        } else if let Some(k) = landed_flight(what) {
            open::land(&mut self.open, k);
        }
        Ok(())
    }

    /// The open flight that began in the entry of this number.
    pub(crate) fn find(&self, k: u64) -> Option<Flight>
        ensures { result ≡ find (starts k) self.now }
    {
        open::find_start(&self.open, k)
    }

    /// The open read whose failure the entry says, if it says one.
    pub(crate) fn failed_by(&self, what: What) -> Option<Flight>
        ensures { result ≡ failed_read_in what self.now }
    {
        match what {
            What::InFail { k, .. } => self.find(k),
            _ => None,
        }
    }

    /// Whether the seat has an open flight.
    pub(crate) fn is_busy(&self, seat: Seat) -> bool
        ensures { result ≡ is_busy seat.0 self.now }
    {
        open::any_by(&self.open, seat)
    }

    /// How many reads are open on the frame.
    pub(crate) fn reads_on(&self, f: Pfn) -> usize
        ensures { result ≡ reads_on f.0 self.now }
    {
        open::count_reads(&self.open, f)
    }

    /// How many writes are open on the frame.
    pub(crate) fn writes_on(&self, f: Pfn) -> usize
        ensures { result ≡ writes_on f.0 self.now }
    {
        open::count_writes(&self.open, f)
    }

    /// How many flights are open on the frame.
    pub(crate) fn flights_on(&self, f: Pfn) -> usize
        ensures { result ≡ reads_on f.0 self.now + writes_on f.0 self.now }
    {
        open::count_frame(&self.open, f)
    }

    /// Whether no flight is open on the block.
    pub(crate) fn is_still(&self, block: BlockId) -> bool
        ensures { result ≡ nat_eq (count_by (is_on_block block) self.now) 0 }
    {
        open::count_on(&self.open, block) == 0
    }

    /// Whether a page of the process is coming.
    pub(crate) fn has_come(&self, p: Proc) -> bool
        ensures { result ≡ has_come p.0 self.now }
    {
        open::any_come(&self.open, p)
    }

    /// The flights of a seat after an entry of it with this number, in the order in which they were begun.
    ///
    /// # Errors
    /// `NoMemory` if out of memory.
    pub(crate) fn by_seat_with(
        &self,
        alloc: Global,
        number: u64,
        seat: Seat,
        what: What,
    ) -> Result<Vec<Flight>, NoMemory>
        ensures { IfOk result (λ v. v.items ≡ reverse (filter (is_by seat.0) (flights_with number seat.0 what self.now))) }
    {
        let mut own = open::by_seat(alloc, &self.open, seat)?;
        if let Some(x) = Flight::begun_by(number, seat, what) {
            own.push(x)?;
        } else if let Some(k) = landed_flight(what) {
            open::land(&mut own, k);
        }
        Ok(own)
    }

    /// Whether none is open.
    pub(crate) fn is_empty(&self) -> bool
        ensures { result ≡ nat_eq (length self.now) 0 }
    {
        self.open.is_empty()
    }
}

/// The number of the entry that began the flight that lands, if one does.
fn landed_flight(what: What) -> Option<u64>
    ensures { result ≡ landed_flight what }
{
    match what {
        What::InOk { k, .. } => Some(k),
        What::InFail { k, .. } => Some(k),
        What::OutOk { k, .. } => Some(k),
        What::OutFail { k, .. } => Some(k),
        _ => None,
    }
}
