ghost use Rattle.std.specs.Prelude.{◌≡◌, ◌↔◌, ◌+◌, ◌<◌, ◌^◌, IfOk, IsTrue, OnErr, false, length};
ghost use Rattle.std.specs.Option.{option_map};
ghost use Rattle.vm_types.specs.Configuration.{IsWellFormed};
ghost use Rattle.pager_policy.specs.Cleaning.{evicting};
ghost use Rattle.pager_model.specs.Run.{pager_after};
ghost use Rattle.log_laws.specs.Underway.{IsAtRest, between_moves, step};
ghost use Rattle.shadow_pager.specs.Shown.{shown};
ghost use Rattle.log_rundown.specs.Chosen.{is_rest};
ghost use Rattle.log_rundown.specs.Standing.{standing_as};
ghost use Rattle.log_rundown.specs.Steps.{IsStep};

use crate::choice::Choice;
use crate::cleaning::Cleaning;
use crate::landings::step_landings;
use crate::moves::choose;
use crate::outs::step_outs;
use crate::standing::Standing;
use crate::steps::step_choice;
use shadow_history::ShadowHistory;
use shadow_pager::ShadowPager;
use std::alloc::Global;
use std::marker::Model;
use vm_journal::Entry;
use vm_types::{NoMemory, Proc};

/// Where a log stands in the rundown.
#[derive(Debug, Drop)]
pub struct Underway {
    at: Standing,
}

impl Model for Underway {
    ghost use Rattle.log_laws.specs.Underway.{Underway as Place};

    ghost Value = { Place };

    ghost use Rattle.log_rundown.specs.Standing.{standing_as};

    ghost view = { λ u. standing_as u.at };
}

/// Where an entry leads to from a place; none if it can't come next.
fn next_standing(
    alloc: Global,
    past: &ShadowHistory<'_>,
    pager: &ShadowPager,
    at: &Standing,
    e: Entry,
) -> Result<Option<Standing>, NoMemory>
    requires formed { IsWellFormed past.now.config }
    requires same { (shown pager.now).pager ≡ pager_after past.now.config past.now.past }
    requires few { length past.now.past + 1 < 2 ^ 48 }
    ensures { IfOk result (λ o. option_map standing_as o ≡ step past.now.config past.now.past (standing_as at.now) e) }
{
    match at {
        Standing::BetweenMoves(here) => {
            let choice = choose(past, pager, *here);
            let moved = step_choice(alloc, past, pager, choice, e)?;
            Ok(moved)
        }
        Standing::InOuts(writes, onward) => {
            let begun = step_outs(alloc, past, writes, *onward, e)?;
            Ok(begun)
        }
        Standing::InLandings(flights, all, onward) => {
            let landed = step_landings(alloc, past, flights, *all, *onward, e)?;
            Ok(landed)
        }
    }
}

/// Whether there is no next move.
fn is_rest(choice: Choice) -> bool
    ensures { result ≡ is_rest choice }
{
    match choice {
        Choice::EvictsPage(..) => false,
        Choice::WritesBefore(..) => false,
        Choice::WritesRound(..) => false,
        Choice::Rests => true,
    }
}

/// Whether the rundown may end at a place.
fn rests_at(past: &ShadowHistory<'_>, pager: &ShadowPager, at: &Standing) -> bool
    requires formed { IsWellFormed past.now.config }
    requires same { (shown pager.now).pager ≡ pager_after past.now.config past.now.past }
    ensures { IsTrue result ↔ IsAtRest past.now.config past.now.past (standing_as at.now) }
{
    match at {
        Standing::BetweenMoves(here) => {
            let choice = choose(past, pager, *here);
            is_rest(choice)
        }
        Standing::InOuts(..) => false,
        Standing::InLandings(..) => false,
    }
}

impl Underway {
    /// Where the rundown begins.
    pub fn first() -> Underway
        ensures { result ≡ between_moves (evicting 0 0 false) }
    {
        Underway {
            at: Standing::BetweenMoves(Cleaning::Evicting {
                process: Proc(0),
                slot: 0,
                failed: false,
            }),
        }
    }

    /// Goes to where an entry leads, and says whether it could come next; if it couldn't, the place is as
    /// it was. The past is without that entry, and the pager is as the past leaves it.
    ///
    /// # Errors
    /// `NoMemory` if out of memory; the place is then as it was.
    pub fn step(
        &mut self,
        alloc: Global,
        past: &ShadowHistory<'_>,
        pager: &ShadowPager,
        e: Entry,
    ) -> Result<bool, NoMemory>
        requires formed { IsWellFormed past.now.config }
        requires same { (shown pager.now).pager ≡ pager_after past.now.config past.now.past }
        requires few { length past.now.past + 1 < 2 ^ 48 }
        ensures ok { IfOk result (IsStep (step past.now.config past.now.past self.old e) self.old self.new) }
        ensures err { OnErr result (self.new ≡ self.old) }
    {
        let next = next_standing(alloc, past, pager, &self.at, e)?;
        match next {
            Some(at) => {
                self.at = at;
                Ok(true)
            }
            None => Ok(false),
        }
    }

    /// Whether the rundown may end here: it is between two moves, and the policy has none. Doesn't
    /// allocate.
    pub fn is_at_rest(&self, past: &ShadowHistory<'_>, pager: &ShadowPager) -> bool
        requires formed { IsWellFormed past.now.config }
        requires same { (shown pager.now).pager ≡ pager_after past.now.config past.now.past }
        ensures { IsTrue result ↔ IsAtRest past.now.config past.now.past self.now }
    {
        rests_at(past, pager, &self.at)
    }
}
