ghost use Rattle.std.specs.Prelude.{◌≡◌, ◌+◌, ◌<◌, ◌^◌, [], ◌∷◌, length, IfOk, OnOk, OnErr};
ghost use Rattle.vm_types.specs.Configuration.{IsWellFormed};
ghost use Rattle.pager_model.specs.Flights.{open_flights};

use crate::carriers::{carry, no_carriers};
use crate::carrying::Carrying;
use crate::count::Count;
use crate::counts::count_failure;
use crate::flight::Flight;
use crate::flights::Flights;
use crate::orders::Orders;
use std::alloc::Global;
use std::marker::Model;
use vm_journal::{Entry, Past};
use vm_types::{Config, NoMemory};

/// What the rows of legal steps ask of the entries so far, which aren't kept. Contracts see the
/// configuration and the entries, the newest first.
#[derive(Drop)]
pub struct ShadowHistory<'a> {
    pub(crate) config: &'a Config,
    pub(crate) past: Past,
    pub(crate) count: u64,
    pub(crate) flights: Flights,
    pub(crate) failed: Option<Flight>,
    /// The last carrier of each seat.
    pub(crate) carriers: Vec<Carrying>,
    /// Of each block that has failed the count of failures that its last failed transfer left.
    pub(crate) counts: Vec<Count>,
    pub(crate) orders: Orders<'a>,
}

impl<'a> Model for ShadowHistory<'a> {
    ghost use Rattle.shadow_history.specs.Standing.{Passed, StandsFor};

    ghost Value = { Passed };

    ghost view = { λ s. record { config = s.config.now; past = s.past.entries } };

    ghost invariant = { λ s. StandsFor s.config.now s.past.entries s.count s.flights s.failed s.carriers.items s.counts.items s.orders };
}

impl<'a> ShadowHistory<'a> {
    ghost use Rattle.shadow_history.specs.Standing.{FailsOpen};

    /// No entries.
    ///
    /// # Errors
    /// `NoMemory` if out of memory.
    pub fn new(alloc: Global, config: &'a Config) -> Result<ShadowHistory<'a>, NoMemory>
        requires { IsWellFormed config.now }
        ensures { IfOk result (λ s. s ≡ record { config = config.now; past = [] }) }
    {
        let procs = config.procs.items().len();
        Ok(ShadowHistory {
            config,
            past: Past::new(),
            count: 0,
            flights: Flights::new(alloc),
            failed: None,
            carriers: no_carriers(alloc, procs + 2)?,
            counts: Vec::new(alloc),
            orders: Orders::new(alloc, &config.body, procs)?,
        })
    }

    /// One more entry, of a process, the writer or the swapper; a read that fails is open.
    ///
    /// # Errors
    /// `NoMemory` if out of memory; nothing is changed then.
    pub fn add(&mut self, e: Entry) -> Result<(), NoMemory>
        requires seat { (e.seat).0 < length self.old.config.procs + 2 }
        requires few { length self.old.past + 1 < 2 ^ 48 }
        requires fails_open { FailsOpen e.what (open_flights self.old.past) }
        ensures ok { OnOk result (self.new ≡ record self.old { past = e ∷ self.old.past }) }
        ensures err { OnErr result (self.new ≡ self.old) }
    {
        let failed = self.flights.failed_by(e.what);
        let busy = self.flights.is_busy(e.seat);
        let number = self.count + 1;
        count_failure(&mut self.counts, &self.flights, e.what)?;
        self.flights.add(number, e.seat, e.what)?;
        carry(&mut self.carriers, number, e.seat, busy, e.what);
        self.orders.add(e.seat, e.what);
        self.failed = failed;
        self.count = number;
        self.past = self.past.then(&e);
        Ok(())
    }
}
