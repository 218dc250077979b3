ghost use Rattle.std.specs.Prelude.{◌≡◌, Option};
ghost use Rattle.vm_types.specs.Configuration.{IsWellFormed};
ghost use Rattle.vm_types.specs.declared.config.Config.{Config};
ghost use Rattle.pager_policy.specs.Cleaning.{evicting};
ghost use Rattle.pager_policy.specs.Given.{seen_at};
ghost use Rattle.pager_policy.specs.Moves.{Move, rests};
ghost use Rattle.pager_model.specs.Pager.{Pager};
ghost use Rattle.pager_policy.specs.Rundown.{clean_move, cleaning_move, later_move, rounds_move};
ghost use Rattle.shadow_pager.specs.Shown.{shown};
ghost use Rattle.log_rundown.specs.Chosen.{move_as, move_or};
ghost use Rattle.log_rundown.specs.Places.{HasSmallSlot, place_as};
ghost use Rattle.log_rundown.specs.Standing.{cleaning_as};

use crate::choice::Choice;
use crate::cleaning::Cleaning;
use crate::eviction::Eviction;
use crate::listed::is_shared_listed;
use crate::places::{Place, shared_place};
use crate::seen::see;
use crate::stops::{goes_to, is_stopped};
use shadow_history::ShadowHistory;
use shadow_pager::ShadowPager;
use vm_types::Proc;

/// How many rounds of writing there are.
const ROUNDS: u32 = 2;

/// A round goes on while it has writes left, and then the next one begins, with as many writes as pages
/// are on the modified list. None once no shared page is on it, or no round follows.
fn choose_round(pager: &ShadowPager, following: u32, left: usize) -> Choice
    ensures { (config : Config) → move_as config (shown pager.now).pager result ≡ rounds_move config (shown pager.now).pager following left }
{
    if !is_shared_listed(pager) {
        return Choice::Rests;
    }
    if left > 0 {
        return Choice::WritesRound(following, left);
    }
    if following == 0 {
        return Choice::Rests;
    }
    let listed = pager.modified_frames();
    Choice::WritesRound(following - 1, listed)
}

/// The page at a place is evicted, unless that is stopped: then a cluster is written first. None if that
/// has failed: then the next place is to be looked at.
fn choose_at(
    past: &ShadowHistory<'_>,
    pager: &ShadowPager,
    at: Place,
    failed: bool,
) -> Option<Choice>
    requires { HasSmallSlot at }
    ensures { (later : Move) → move_or past.now.config (shown pager.now).pager later result
        ≡ clean_move past.now.config past.now.past (shown pager.now).pager (place_as at) failed later
        (seen_at (shown pager.now).pager (at.process).0 at.slot) }
{
    match see(pager, at.process, at.slot) {
        Some(seen) => {
            let to = goes_to(past, pager, seen.frame);
            if !is_stopped(past, pager, seen.frame, to) {
                let eviction = Eviction {
                    process: at.process,
                    vpn: seen.vpn,
                    frame: seen.frame,
                    to,
                };
                return Some(Choice::EvictsPage(eviction, at.slot + 1));
            }
            if failed {
                return None;
            }
            Some(Choice::WritesBefore(at.process, at.slot))
        }
        None => None,
    }
}

/// What is chosen, or none where nothing is.
fn or_rest(choice: Option<Choice>) -> Choice
    ensures { (config : Config) (a : Pager) → move_as config a result ≡ move_or config a rests choice }
{
    match choice {
        Some(choice) => choice,
        None => Choice::Rests,
    }
}

/// What is chosen at the next place after this one, where no cluster has failed yet.
fn choose_later(past: &ShadowHistory<'_>, pager: &ShadowPager, at: Place) -> Choice
    requires formed { IsWellFormed past.now.config }
    requires small { HasSmallSlot at }
    ensures { move_as past.now.config (shown pager.now).pager result
        ≡ later_move past.now.config past.now.past (shown pager.now).pager (place_as at) }
{
    let config = past.config();
    match shared_place(config, pager, at.process, at.slot + 1) {
        Some(next) => {
            let choice = choose_at(past, pager, next, false);
            or_rest(choice)
        }
        None => choose_round(pager, ROUNDS, 0),
    }
}

/// What is chosen at a place, or else at the next one.
fn choose_on(past: &ShadowHistory<'_>, pager: &ShadowPager, at: Place, failed: bool) -> Choice
    requires formed { IsWellFormed past.now.config }
    requires small { HasSmallSlot at }
    ensures { move_as past.now.config (shown pager.now).pager result
        ≡ clean_move past.now.config past.now.past (shown pager.now).pager (place_as at) failed
        (later_move past.now.config past.now.past (shown pager.now).pager (place_as at))
        (seen_at (shown pager.now).pager (at.process).0 at.slot) }
{
    match choose_at(past, pager, at, failed) {
        Some(choice) => choice,
        None => choose_later(past, pager, at),
    }
}

/// What is chosen from a slot of a process on, for which a cluster has failed or not.
fn choose_from(
    past: &ShadowHistory<'_>,
    pager: &ShadowPager,
    p: Proc,
    n: u32,
    failed: bool,
) -> Choice
    requires { IsWellFormed past.now.config }
    ensures { move_as past.now.config (shown pager.now).pager result
        ≡ cleaning_move past.now.config past.now.past (shown pager.now).pager (evicting p.0 n failed) }
{
    let config = past.config();
    match shared_place(config, pager, p, n) {
        Some(at) => choose_on(past, pager, at, failed),
        None => choose_round(pager, ROUNDS, 0),
    }
}

/// The rundown's next move. Doesn't allocate.
pub(crate) fn choose(past: &ShadowHistory<'_>, pager: &ShadowPager, at: Cleaning) -> Choice
    requires { IsWellFormed past.now.config }
    ensures { move_as past.now.config (shown pager.now).pager result
        ≡ cleaning_move past.now.config past.now.past (shown pager.now).pager (cleaning_as at) }
{
    match at {
        Cleaning::Evicting {
            process,
            slot,
            failed,
        } => choose_from(past, pager, process, slot, failed),
        Cleaning::Rounds { following, left } => choose_round(pager, following, left),
    }
}
