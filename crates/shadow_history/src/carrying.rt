ghost use Rattle.std.specs.Prelude.{◌≡◌, ◌+◌, ◌<◌, ◌^◌, Some};
ghost use Rattle.pager_model.specs.Carrier.{carried, carrying_with, having_spoken, is_lost, is_start, landed_badly, landed_well, no_carrier};

use crate::flight::Flight;
use std::marker::Model;
use vm_journal::What;
use vm_types::Seat;

/// A seat's last carrier: its first and its last flight, how many were begun, have landed, and failed,
/// whether the first one failed, and whether the seat has spoken since it began.
#[derive(Clone, Copy, Debug)]
pub struct Carrying {
    first: Option<Flight>,
    last: Option<Flight>,
    begun: u64,
    landed: u64,
    failed: u64,
    first_failed: bool,
    spoken_since: bool,
}

impl Model for Carrying {
    ghost use Rattle.pager_model.specs.Carrier.{Carrying as LastCarrier};

    ghost Value = { LastCarrier };

    ghost view = { λ c. record { first = c.first; last = c.last; begun = c.begun; landed = c.landed; failed = c.failed; first_failed = c.first_failed; spoken_since = c.spoken_since } };

    ghost inverse = { λ c. record { first = c.first; last = c.last; begun = c.begun; landed = c.landed; failed = c.failed; first_failed = c.first_failed; spoken_since = c.spoken_since } };
}

impl Carrying {
    ghost use Rattle.shadow_history.specs.Carriers.{HasSmallCounts};

    /// No carrier.
    pub(crate) fn none() -> Carrying
        ensures { result ≡ no_carrier }
    {
        Carrying {
            first: None,
            last: None,
            begun: 0,
            landed: 0,
            failed: 0,
            first_failed: false,
            spoken_since: false,
        }
    }

    /// The first flight, if there is a carrier.
    pub fn first(self) -> Option<Flight>
        ensures { result ≡ self.first }
    {
        self.first
    }

    /// The last flight, if there is a carrier.
    pub fn last(self) -> Option<Flight>
        ensures { result ≡ self.last }
    {
        self.last
    }

    /// How many flights were begun.
    pub fn begun(self) -> u64
        ensures { result ≡ self.begun }
    {
        self.begun
    }

    /// How many of them have landed.
    pub fn landed(self) -> u64
        ensures { result ≡ self.landed }
    {
        self.landed
    }

    /// Whether the seat has spoken since the carrier began.
    pub fn has_spoken(self) -> bool
        ensures { result ≡ self.spoken_since }
    {
        self.spoken_since
    }

    /// Whether the carrier is lost: its first flight was a read of role FAULT that failed, or all its
    /// flights failed.
    pub fn is_lost(self) -> bool
        ensures { result ≡ is_lost self }
    {
        let faulty = match self.first {
            None => false,
            Some(x) => x.direction().is_fault(),
        };
        self.begun > 0 && (faulty && self.first_failed || self.failed == self.begun)
    }

    /// Goes on with its seat's own entry of this number; the seat was busy before it or not.
    pub(crate) fn add(&mut self, number: u64, seat: Seat, busy: bool, what: What)
        requires { HasSmallCounts (2 ^ 48) self.old }
        ensures { self.new ≡ carrying_with number seat.0 busy what self.old }
    {
        match what {
            What::In { .. } | What::Out { .. } => {
                self.carry(busy, Flight::begun_by(number, seat, what))
            }
            What::InOk { .. } | What::OutOk { .. } => self.land_well(),
            What::InFail { k, .. } => self.land_badly(k),
            What::OutFail { k, .. } => self.land_badly(k),
            What::Done { .. } | What::Denied { .. } | What::Served { .. } => self.speak(),
            _ => (),
        }
    }

    /// One more flight of a busy seat, or the first of the next carrier; the same if none begins.
    fn carry(&mut self, busy: bool, begun: Option<Flight>)
        requires { HasSmallCounts (2 ^ 48) self.old }
        ensures { self.new ≡ carried busy self.old begun }
    {
        let Some(x) = begun else {
            return;
        };
        if !busy {
            *self = Carrying::none();
            self.first = Some(x);
        }
        self.last = Some(x);
        self.begun += 1;
    }

    /// One flight more has landed.
    fn land_well(&mut self)
        requires { HasSmallCounts (2 ^ 48) self.old }
        ensures { self.new ≡ landed_well self.old }
    {
        self.landed += 1;
    }

    /// The flight that began in the entry of this number has landed and failed.
    fn land_badly(&mut self, k: u64)
        requires { HasSmallCounts (2 ^ 48) self.old }
        ensures { self.new ≡ landed_badly self.old k }
    {
        let is_first = match self.first {
            None => false,
            Some(x) => x.start() == k,
        };
        self.land_well();
        self.failed += 1;
        self.first_failed = self.first_failed || is_first;
    }

    /// The seat has spoken since it began.
    fn speak(&mut self)
        ensures { self.new ≡ having_spoken self.old }
    {
        self.spoken_since = true;
    }
}
