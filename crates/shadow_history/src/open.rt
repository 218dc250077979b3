ghost use Rattle.std.specs.Prelude.{◌≡◌, ◌+◌, IfOk, find, count_by, filter, reverse};
ghost use Rattle.std.specs.List.{list_any};
ghost use Rattle.pager_model.specs.Flights.{is_busy, without_flight};
ghost use Rattle.pager_model.specs.Transfers.{has_come, is_on_block, is_by, reads_on, starts, writes_on};

use crate::flight::Flight;
use std::alloc::Global;
use vm_types::{BlockId, NoMemory, Pfn, Proc, Seat, is_same_block};

/// The flight that began in the entry of this number.
pub(crate) fn find_start(flights: &[Flight], k: u64) -> Option<Flight>
    ensures { result ≡ find (starts k) flights.now }
{
    flights.iter().find(|x| x.start() == k).copied()
}

/// Whether the seat has one.
pub(crate) fn any_by(flights: &[Flight], seat: Seat) -> bool
    ensures { result ≡ is_busy seat.0 flights.now }
{
    flights.iter().any(|x| x.seat().0 == seat.0)
}

/// How many are reads into the frame.
pub(crate) fn count_reads(flights: &[Flight], f: Pfn) -> usize
    ensures { result ≡ reads_on f.0 flights.now }
{
    flights
        .iter()
        .filter(|x| x.frame().0 == f.0 && x.direction().is_reading())
        .count()
}

/// How many are writes from the frame.
pub(crate) fn count_writes(flights: &[Flight], f: Pfn) -> usize
    ensures { result ≡ writes_on f.0 flights.now }
{
    flights
        .iter()
        .filter(|x| x.frame().0 == f.0 && !x.direction().is_reading())
        .count()
}

/// How many are reads into the frame or writes from it.
pub(crate) fn count_frame(flights: &[Flight], f: Pfn) -> usize
    ensures { result ≡ reads_on f.0 flights.now + writes_on f.0 flights.now }
{
    flights.iter().filter(|x| x.frame().0 == f.0).count()
}

/// How many are on the block.
pub(crate) fn count_on(flights: &[Flight], block: BlockId) -> usize
    ensures { result ≡ count_by (is_on_block block) flights.now }
{
    flights
        .iter()
        .filter(|x| is_same_block(block, x.block()))
        .count()
}

/// Whether one brings back a page of the process.
pub(crate) fn any_come(flights: &[Flight], p: Proc) -> bool
    ensures { result ≡ has_come p.0 flights.now }
{
    flights.iter().any(|x| x.direction().is_come(p))
}

/// Leaves those that didn't begin in the entry of this number.
pub(crate) fn land(flights: &mut Vec<Flight>, k: u64)
    ensures { flights.new.items ≡ without_flight k flights.old.items }
{
    flights.retain(|x| x.start() != k);
}

/// Those of the seat, the last one first.
///
/// # Errors
/// `NoMemory` if out of memory.
pub(crate) fn by_seat(
    alloc: Global,
    flights: &[Flight],
    seat: Seat,
) -> Result<Vec<Flight>, NoMemory>
    ensures { IfOk result (λ v. v.items ≡ reverse (filter (is_by seat.0) flights.now)) }
{
    let mut own: Vec<Flight> = flights
        .iter()
        .copied()
        .filter(|x| x.seat().0 == seat.0)
        .collect(alloc)?;
    own.reverse();
    Ok(own)
}
