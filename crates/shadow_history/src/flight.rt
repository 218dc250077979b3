ghost use Rattle.std.specs.Prelude.{◌≡◌};
ghost use Rattle.pager_model.specs.Flights.{begun_by};
ghost use Rattle.shadow_history.specs.Directions.{direction_of};

use crate::direction::Direction;
use std::marker::Model;
use vm_journal::What;
use vm_types::{BlockId, Pfn, Seat};

/// A transfer that has begun: in which entry, by which seat, to or from which frame, from or to which
/// block, and which way it goes.
#[derive(Clone, Copy, Debug)]
pub struct Flight {
    start: u64,
    seat: Seat,
    frame: Pfn,
    block: BlockId,
    direction: Direction,
}

impl Model for Flight {
    ghost use Rattle.pager_model.specs.Flights.{Flight as OpenFlight};

    ghost Value = { OpenFlight };

    ghost use Rattle.shadow_history.specs.Directions.{direction_as, direction_of, direction_again};

    ghost view = { λ x. record { start = x.start; seat = x.seat.0; frame = x.frame.0; block = x.block; direction = direction_of x.direction } };

    ghost inverse = { λ x. record { start = x.start; seat = record { 0 = x.seat }; frame = record { 0 = x.frame }; block = x.block; direction = direction_as x.direction } };

    ghost inverse_ok = { λ x h. direction_again x.start x.seat x.frame x.block x.direction };
}

impl Flight {
    /// The flight that begins in the entry of this number, if one does.
    pub(crate) fn begun_by(number: u64, seat: Seat, what: What) -> Option<Flight>
        ensures { result ≡ begun_by number seat.0 what }
    {
        match what {
            What::In { f, block, role } => Some(Flight {
                start: number,
                seat,
                frame: f,
                block,
                direction: Direction::Reading(role),
            }),
            What::Out { f, block } => Some(Flight {
                start: number,
                seat,
                frame: f,
                block,
                direction: Direction::Writing,
            }),
            _ => None,
        }
    }

    /// The number of the entry that began it.
    pub fn start(self) -> u64
        ensures { result ≡ self.start }
    {
        self.start
    }

    /// The seat that began it.
    pub fn seat(self) -> Seat
        ensures { result.0 ≡ self.seat }
    {
        self.seat
    }

    /// Its frame.
    pub fn frame(self) -> Pfn
        ensures { result.0 ≡ self.frame }
    {
        self.frame
    }

    /// Its block.
    pub fn block(self) -> BlockId
        ensures { result ≡ self.block }
    {
        self.block
    }

    /// Which way it goes.
    pub fn direction(self) -> Direction
        ensures { direction_of result ≡ self.direction }
    {
        self.direction
    }
}
