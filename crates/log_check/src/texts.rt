ghost use Rattle.std.specs.Prelude.{◌≡◌, ◌⊎◌, ◌↔◌, ◌<◌, ◌^◌, IfErr, IfOk, IsTrue, length};
ghost use Rattle.log_model.specs.Stand.{ending_after, report_after};
ghost use Rattle.log_check.specs.Followed.{IsFollowed};
ghost use Rattle.log_check.specs.Leading.{
  EndingLeads,
  EndingTextLeads,
  IsReported,
  MayReport,
  ReportLeads,
  TextLeads,
};
ghost use Rattle.log_check.specs.Refusing.{IsNeither, IsNotIn};
ghost use Rattle.log_check.specs.Results.{ok_of};
ghost use Rattle.log_check.specs.Texts.{Begins};

use crate::expected::Expected;
use crate::followed::Followed;
use crate::place::Place;
use log_reasons::LineReason;
use log_report::{ending_text, report_text};
use log_rundown::Underway;
use std::alloc::Global;
use vm_types::NoMemory;

/// Where the next line stands if this is left of the report.
fn in_report(left: Expected) -> Place
    ensures { IsReported left result }
{
    if left.is_empty() {
        Place::Rundown(Underway::first())
    } else {
        Place::Report(left)
    }
}

/// Whether the report may begin: every request is answered, no flight is open, and no frame awaits its
/// reuse.
fn may_report(followed: &Followed<'_>) -> bool
    requires { IsFollowed followed.now }
    ensures { IsTrue result ↔ MayReport followed.now.past.config followed.now.past.past }
{
    let past = &followed.past;
    past.is_answered() && past.is_landed() && !past.awaits_reuse()
}

/// Why a line is none that may come, if it is no entry's for the first reason, and doesn't begin the text.
fn not_in_text(known: LineReason, left: &Expected, line: &[u8]) -> LineReason
    requires { Begins left.now line.now → ⊥ }
    ensures { IsNeither known left.now line.now result }
{
    match known {
        LineReason::NoEntry => LineReason::NotInText(left.next_line()),
        other => other,
    }
}

/// Behind entries: where the line leads that begins the report; if it doesn't, why it is none, and why it is no
/// entry's is known.
///
/// # Errors
/// `NoMemory` if out of memory.
pub(crate) fn begin_report(
    alloc: Global,
    followed: &Followed<'_>,
    line: &[u8],
    known: LineReason,
) -> Result<Result<Place, LineReason>, NoMemory>
    requires { IsFollowed followed.now }
    ensures leads { IfOk result (λ r. ReportLeads followed.now.past line.now (ok_of r)) }
    ensures refused { IfOk result (λ r. IfErr r (IsNeither known (report_after followed.now.past.config followed.now.past.past) line.now)) }
{
    if !may_report(followed) {
        return Ok(Err(known));
    }
    let text = report_text(alloc, &followed.past, &followed.pager)?;
    let mut left = Expected::new(text);
    if left.take(line) {
        Ok(Ok(in_report(left)))
    } else {
        Ok(Err(not_in_text(known, &left, line)))
    }
}

/// In the report: where the line leads that is its next one; if it isn't, what that is.
pub(crate) fn go_on_report(left: Expected, line: &[u8]) -> Result<Place, LineReason>
    ensures leads { TextLeads left line.now (ok_of result) }
    ensures refused { IfErr result (IsNotIn left line.now) }
{
    let mut rest = left;
    if rest.take(line) {
        Ok(in_report(rest))
    } else {
        Err(LineReason::NotInText(rest.next_line()))
    }
}

/// In the rundown: where the line leads that begins the ending; if it doesn't, why it is none, and why it is no
/// entry's is known.
///
/// # Errors
/// `NoMemory` if out of memory.
pub(crate) fn begin_ending(
    alloc: Global,
    followed: &Followed<'_>,
    underway: &Underway,
    line: &[u8],
    known: LineReason,
) -> Result<Result<Place, LineReason>, NoMemory>
    requires followed { IsFollowed followed.now }
    requires few { length followed.now.past.past < 2 ^ 32 }
    ensures leads { IfOk result (λ r. EndingLeads followed.now.past underway.now line.now (ok_of r)) }
    ensures refused { IfOk result (λ r. IfErr r (IsNeither known (ending_after followed.now.past.config followed.now.past.past) line.now)) }
{
    if !underway.is_at_rest(&followed.past, &followed.pager) {
        return Ok(Err(known));
    }
    let text = ending_text(alloc, &followed.past, &followed.pager)?;
    let mut left = Expected::new(text);
    if left.take(line) {
        Ok(Ok(Place::Ending(followed.past.count() as u32, left)))
    } else {
        Ok(Err(not_in_text(known, &left, line)))
    }
}

/// In the ending: where the line leads that is its next one; if it isn't, what that is.
pub(crate) fn go_on_ending(entries: u32, left: Expected, line: &[u8]) -> Result<Place, LineReason>
    ensures leads { EndingTextLeads entries left line.now (ok_of result) }
    ensures refused { IfErr result (IsNotIn left line.now) }
{
    let mut rest = left;
    if rest.take(line) {
        Ok(Place::Ending(entries, rest))
    } else {
        Err(LineReason::NotInText(rest.next_line()))
    }
}
