ghost use Rattle.std.specs.Prelude.{◌≡◌, ◌+◌, ◌<◌, ◌^◌, IfOk, Some, None, false, if◌then◌else◌, length, true};
ghost use Rattle.std.specs.Option.{option_map};
ghost use Rattle.pager_policy.specs.Cleaning.{evicting, rounds};
ghost use Rattle.log_laws.specs.Underway.{between_moves, is_made, plan_of, step_plan};
ghost use Rattle.shadow_pager.specs.Shown.{shown};
ghost use Rattle.log_rundown.specs.Chosen.{eviction_as, move_as};
ghost use Rattle.log_rundown.specs.Standing.{onward_as, standing_as};

use crate::choice::Choice;
use crate::cleaning::Cleaning;
use crate::cluster::cluster_writes;
use crate::eviction::Eviction;
use crate::expected::is_evicted;
use crate::onward::Onward;
use crate::outs::step_outs;
use crate::standing::Standing;
use shadow_history::ShadowHistory;
use shadow_pager::ShadowPager;
use std::alloc::Global;
use vm_journal::Entry;
use vm_types::{Config, NoMemory, Proc};

/// After a cluster that was written for the page in a slot that slot is looked at again.
fn again(process: Proc, slot: u32) -> Onward
    ensures { onward_as result ≡ record { failed = evicting process.0 slot true; written = evicting process.0 slot false } }
{
    Onward {
        failed: Cleaning::Evicting {
            process,
            slot,
            failed: true,
        },
        written: Cleaning::Evicting {
            process,
            slot,
            failed: false,
        },
    }
}

/// After a cluster of a round the round goes on, whether the cluster failed or not.
fn in_round(following: u32, left: usize) -> Onward
    ensures { onward_as result ≡ record { failed = rounds following left; written = rounds following left } }
{
    let at = Cleaning::Rounds { following, left };
    Onward {
        failed: at,
        written: at,
    }
}

/// Where an entry leads to if this eviction is the next move; none if it can't come next.
fn step_eviction(config: &Config, x: Eviction, slot: u32, e: Entry) -> Option<Standing>
    ensures { option_map standing_as result
        ≡ (if is_made config.now (eviction_as x) e then Some (between_moves (evicting (x.process).0 slot false)) else None) }
{
    if is_evicted(config, x, e) {
        let process = x.process;
        Some(Standing::BetweenMoves(Cleaning::Evicting {
            process,
            slot,
            failed: false,
        }))
    } else {
        None
    }
}

/// Where an entry leads to if this is the next move; none if it can't come next.
///
/// # Errors
/// `NoMemory` if out of memory.
pub(crate) fn step_choice(
    alloc: Global,
    past: &ShadowHistory<'_>,
    pager: &ShadowPager,
    choice: Choice,
    e: Entry,
) -> Result<Option<Standing>, NoMemory>
    requires { length past.now.past + 1 < 2 ^ 48 }
    ensures { IfOk result (λ o. option_map standing_as o
        ≡ step_plan past.now.config past.now.past (plan_of (move_as past.now.config (shown pager.now).pager choice)) e) }
{
    match choice {
        Choice::EvictsPage(x, slot) => {
            let at = step_eviction(past.config(), x, slot, e);
            Ok(at)
        }
        Choice::WritesBefore(process, slot) => {
            let writes = cluster_writes(alloc, past.config(), pager)?;
            let onward = again(process, slot);
            let at = step_outs(alloc, past, &writes, onward, e)?;
            Ok(at)
        }
        Choice::WritesRound(following, left) => {
            let writes = cluster_writes(alloc, past.config(), pager)?;
            let onward = in_round(following, left.saturating_sub(writes.len()));
            let at = step_outs(alloc, past, &writes, onward, e)?;
            Ok(at)
        }
        Choice::Rests => Ok(None),
    }
}
