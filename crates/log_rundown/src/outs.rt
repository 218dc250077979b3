ghost use Rattle.std.specs.Prelude.{◌≡◌, ◌+◌, ◌<◌, ◌∷◌, ◌^◌, IfOk, length, true};
ghost use Rattle.std.specs.Option.{option_map};
ghost use Rattle.pager_model.specs.Flights.{carrier_of};
ghost use Rattle.pager_policy.specs.Rundown.{writer_of};
ghost use Rattle.log_laws.specs.Underway.{after_landings, after_outs, step_outs};
ghost use Rattle.log_rundown.specs.Standing.{onward_as, standing_as};
ghost use Rattle.log_rundown.specs.Written.{writes_as};

use crate::expected::is_begun;
use crate::landings::after_landings;
use crate::onward::Onward;
use crate::standing::Standing;
use crate::write::Write;
use shadow_history::ShadowHistory;
use std::alloc::Global;
use vm_journal::Entry;
use vm_types::NoMemory;

/// The writes themselves.
fn copy_writes(alloc: Global, writes: &[Write]) -> Result<Vec<Write>, NoMemory>
    ensures { IfOk result (λ v. v.items ≡ writes.now) }
{
    let copy: Vec<Write> = writes.iter().copied().collect(alloc)?;
    Ok(copy)
}

/// The flights of an entry's seat land, in the order in which they were begun; that entry may be the last
/// to begin one.
fn first_landings(
    alloc: Global,
    past: &ShadowHistory<'_>,
    onward: Onward,
    e: Entry,
) -> Result<Standing, NoMemory>
    requires { length past.now.past + 1 < 2 ^ 48 }
    ensures { IfOk result (λ at. standing_as at
        ≡ after_landings (carrier_of (e.seat).0 (e ∷ past.now.past)) true (onward_as onward)) }
{
    let flights = past.carrier_with(alloc, e)?;
    let at = after_landings(flights, true, onward);
    Ok(at)
}

/// Where the writer's entry leads to that begins a write, if these writes are left: where none is left the
/// flights of its seat land, in the order in which they were begun.
fn after_outs(
    alloc: Global,
    past: &ShadowHistory<'_>,
    writes: &[Write],
    onward: Onward,
    e: Entry,
) -> Result<Standing, NoMemory>
    requires few { length past.now.past + 1 < 2 ^ 48 }
    requires writer { (e.seat).0 ≡ writer_of past.now.config }
    ensures { IfOk result (λ at. standing_as at
        ≡ after_outs past.now.config (e ∷ past.now.past) (writes_as writes.now) (onward_as onward)) }
{
    if writes.is_empty() {
        return first_landings(alloc, past, onward, e);
    }
    let rest = copy_writes(alloc, writes)?;
    Ok(Standing::InOuts(rest, onward))
}

/// Where an entry leads to in a cluster whose next writes are these; none if it can't come next.
///
/// # Errors
/// `NoMemory` if out of memory.
pub(crate) fn step_outs(
    alloc: Global,
    past: &ShadowHistory<'_>,
    writes: &[Write],
    onward: Onward,
    e: Entry,
) -> Result<Option<Standing>, NoMemory>
    requires { length past.now.past + 1 < 2 ^ 48 }
    ensures { IfOk result (λ o. option_map standing_as o
        ≡ step_outs past.now.config past.now.past (writes_as writes.now) (onward_as onward) e) }
{
    let Some((first, rest)) = writes.split_first() else {
        return Ok(None);
    };
    if !is_begun(past.config(), *first, e) {
        return Ok(None);
    }
    let at = after_outs(alloc, past, rest, onward, e)?;
    Ok(Some(at))
}
