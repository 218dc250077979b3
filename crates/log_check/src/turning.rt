ghost use Rattle.std.specs.Prelude.{◌≡◌, ◌⊎◌, ◌+◌, ◌<◌, ◌^◌, ◌≢◌, All, IfErr, IfOk, length};
ghost use Rattle.vm_journal.specs.HasLine.{HasLine};
ghost use Rattle.log_reasons.specs.LineReasons.{IsEntryRefused};
ghost use Rattle.log_check.specs.declared.place.Place.TheVariants.{Entries, Rundown};
ghost use Rattle.log_check.specs.Followed.{IsFollowed};
ghost use Rattle.log_check.specs.Leading.{Leads, RundownLeads};
ghost use Rattle.log_check.specs.Refusing.{FailsAt, IsUnstepped};
ghost use Rattle.log_check.specs.Results.{ok_of};

use crate::entry_line::entry_of;
use crate::followed::Followed;
use crate::place::Place;
use crate::step::fails;
use crate::texts::{begin_ending, begin_report, go_on_ending, go_on_report};
use log_reasons::LineReason;
use log_rundown::Underway;
use std::alloc::Global;
use vm_journal::Entry;
use vm_types::NoMemory;

/// Behind entries: where the next entry or the report's first line leads, or why the line is neither.
fn take_entry(
    alloc: Global,
    followed: &mut Followed<'_>,
    line: &[u8],
) -> Result<Result<Place, LineReason>, NoMemory>
    requires followed { IsFollowed followed.old }
    requires few { length followed.old.past.past + 1 < 2 ^ 32 }
    requires line { All (λ b. b ≢ 10) line.now }
    ensures leads { IfOk result (λ r. Leads followed.old Entries line.now followed.new (ok_of r)) }
    ensures refused { IfOk result (λ r. IfErr r (FailsAt followed.old.past Entries line.now)) }
{
    let number = followed.past.count() + 1;
    match entry_of(followed.past.config(), number, line) {
        Ok(e) => match followed.enter(e)? {
            None => Ok(Ok(Place::Entries)),
            Some(why) => Ok(Err(why)),
        },
        Err(known) => begin_report(alloc, followed, line, known),
    }
}

/// Why an entry that has a line isn't a next one that is no step of the rundown: for its own sake, if it isn't
/// legal.
fn unstepped(followed: &Followed<'_>, e: Entry) -> LineReason
    requires line { HasLine (length followed.now.past.config.procs) followed.now.past.config.sections e }
    requires followed { IsFollowed followed.now }
    ensures { IsEntryRefused followed.now.past.config followed.now.past.past e result ⊎ (result ≡ LineReason.NotOfRundown) }
{
    match fails(&followed.past, &followed.pager, e) {
        None => LineReason::NotOfRundown,
        Some(reason) => LineReason::NotLegal(reason),
    }
}

/// In the rundown: where an entry leads, or why it isn't a next one.
fn step_rundown(
    alloc: Global,
    followed: &mut Followed<'_>,
    underway: Underway,
    e: Entry,
) -> Result<Result<Place, LineReason>, NoMemory>
    requires line { HasLine (length followed.old.past.config.procs) followed.old.past.config.sections e }
    requires followed { IsFollowed followed.old }
    requires few { length followed.old.past.past + 1 < 2 ^ 32 }
    ensures leads { IfOk result (λ r. RundownLeads followed.old underway e followed.new (ok_of r)) }
    ensures refused { IfOk result (λ r. IfErr r (IsUnstepped followed.old.past underway e)) }
{
    let mut next = underway;
    if !next.step(alloc, &followed.past, &followed.pager, e)? {
        return Ok(Err(unstepped(followed, e)));
    }
    match followed.enter(e)? {
        None => Ok(Ok(Place::Rundown(next))),
        Some(why) => Ok(Err(why)),
    }
}

/// In the rundown: where the next entry or the ending's first line leads, or why the line is neither.
fn take_rundown(
    alloc: Global,
    followed: &mut Followed<'_>,
    underway: Underway,
    line: &[u8],
) -> Result<Result<Place, LineReason>, NoMemory>
    requires followed { IsFollowed followed.old }
    requires few { length followed.old.past.past + 1 < 2 ^ 32 }
    requires line { All (λ b. b ≢ 10) line.now }
    ensures leads { IfOk result (λ r. Leads followed.old (Rundown underway) line.now followed.new (ok_of r)) }
    ensures refused { IfOk result (λ r. IfErr r (FailsAt followed.old.past (Rundown underway) line.now)) }
{
    let number = followed.past.count() + 1;
    match entry_of(followed.past.config(), number, line) {
        Ok(e) => step_rundown(alloc, followed, underway, e),
        Err(known) => begin_ending(alloc, followed, &underway, line, known),
    }
}

/// Where a line leads, which has no byte 10; if it isn't a legal next one, why it isn't, and what follows the
/// entries is then not to be used again.
///
/// # Errors
/// `NoMemory` if out of memory; what follows the entries is then not to be used again.
pub(crate) fn take(
    alloc: Global,
    followed: &mut Followed<'_>,
    place: Place,
    line: &[u8],
) -> Result<Result<Place, LineReason>, NoMemory>
    requires followed { IsFollowed followed.old }
    requires few { length followed.old.past.past + 1 < 2 ^ 32 }
    requires line { All (λ b. b ≢ 10) line.now }
    ensures leads { IfOk result (λ r. Leads followed.old place line.now followed.new (ok_of r)) }
    ensures refused { IfOk result (λ r. IfErr r (FailsAt followed.old.past place line.now)) }
{
    match place {
        Place::Entries => take_entry(alloc, followed, line),
        Place::Report(left) => Ok(go_on_report(left, line)),
        Place::Rundown(underway) => take_rundown(alloc, followed, underway, line),
        Place::Ending(entries, left) => Ok(go_on_ending(entries, left, line)),
    }
}
