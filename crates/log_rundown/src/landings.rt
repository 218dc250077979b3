ghost use Rattle.std.specs.Prelude.{◌≡◌, ◌&&◌, IfOk, if◌then◌else◌};
ghost use Rattle.std.specs.Option.{option_map};
ghost use Rattle.log_laws.specs.Underway.{after_landings, step_landings};
ghost use Rattle.log_rundown.specs.Standing.{cleaning_as, onward_as, standing_as};

use crate::cleaning::Cleaning;
use crate::expected::landed_as;
use crate::onward::Onward;
use crate::standing::Standing;
use shadow_history::{Flight, ShadowHistory};
use std::alloc::Global;
use vm_journal::Entry;
use vm_types::NoMemory;

/// Where the rundown goes on after a cluster of which all writes have failed, or not all.
fn goes_on(all: bool, onward: Onward) -> Cleaning
    ensures { cleaning_as result ≡ (if all then (onward_as onward).failed else (onward_as onward).written) }
{
    if all { onward.failed } else { onward.written }
}

/// Where no flight is left to land the move has ended.
pub(crate) fn after_landings(flights: Vec<Flight>, all: bool, onward: Onward) -> Standing
    ensures { standing_as result ≡ after_landings flights.items all (onward_as onward) }
{
    if flights.is_empty() {
        let at = goes_on(all, onward);
        return Standing::BetweenMoves(at);
    }
    Standing::InLandings(flights, all, onward)
}

/// The flights themselves.
fn copy_flights(alloc: Global, flights: &[Flight]) -> Result<Vec<Flight>, NoMemory>
    ensures { IfOk result (λ v. v.items ≡ flights.now) }
{
    let copy: Vec<Flight> = flights.iter().copied().collect(alloc)?;
    Ok(copy)
}

/// Whether both hold.
fn both(one: bool, other: bool) -> bool
    ensures { result ≡ (one && other) }
{
    one && other
}

/// Where an entry leads to in a cluster whose flights land in this order; none if it can't come next.
///
/// # Errors
/// `NoMemory` if out of memory.
pub(crate) fn step_landings(
    alloc: Global,
    past: &ShadowHistory<'_>,
    flights: &[Flight],
    all: bool,
    onward: Onward,
    e: Entry,
) -> Result<Option<Standing>, NoMemory>
    ensures { IfOk result (λ o. option_map standing_as o
        ≡ step_landings past.now.config past.now.past flights.now all (onward_as onward) e) }
{
    let Some((first, rest)) = flights.split_first() else {
        return Ok(None);
    };
    let Some(failed) = landed_as(past, *first, e) else {
        return Ok(None);
    };
    let left = copy_flights(alloc, rest)?;
    let every = both(all, failed);
    let at = after_landings(left, every, onward);
    Ok(Some(at))
}
