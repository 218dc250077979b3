ghost use Rattle.std.specs.Prelude.{◌≡◌};
ghost use Rattle.pager_model.specs.Transfers.{is_come, is_fault};
ghost use Rattle.pager_model.specs.Flights.{is_reading};
ghost use Rattle.shadow_history.specs.Directions.{direction_of};

use vm_journal::Role;
use vm_types::Proc;

/// Which way a transfer goes: a read, with its role, or a write.
#[derive(Clone, Copy, Debug, PartialEq, Eq)]
pub enum Direction {
    Reading(Role),
    Writing,
}

impl Direction {
    /// Whether it is a read.
    pub fn is_reading(self) -> bool
        ensures { result ≡ is_reading (direction_of self) }
    {
        match self {
            Direction::Reading(_) => true,
            Direction::Writing => false,
        }
    }

    /// Whether it is a read of role FAULT.
    pub fn is_fault(self) -> bool
        ensures { result ≡ is_fault (direction_of self) }
    {
        match self {
            Direction::Reading(Role::Fault(_, _)) => true,
            Direction::Reading(Role::Near(_)) => false,
            Direction::Reading(Role::Come(_, _)) => false,
            Direction::Writing => false,
        }
    }

    /// Whether it is a read of role COME for the process.
    pub fn is_come(self, p: Proc) -> bool
        ensures { result ≡ is_come p.0 (direction_of self) }
    {
        match self {
            Direction::Reading(Role::Come(q, _)) => q.0 == p.0,
            Direction::Reading(Role::Fault(_, _)) => false,
            Direction::Reading(Role::Near(_)) => false,
            Direction::Writing => false,
        }
    }
}
