ghost use Rattle.std.specs.Prelude.{◌≡◌, ◌+◌, ◌≤◌, ◌<◌, List, [], ℕ, IfOk, IfSome, IsSome, length};
ghost use Rattle.vm_types.specs.declared.limits.TheConstants.{MOST_LOG_LINES};
ghost use Rattle.vm_types.specs.Configuration.{IsWellFormed};
ghost use Rattle.outside_io.specs.BytesLeft.{bytes_left};
ghost use Rattle.log_check.specs.Followed.{IsFollowed};
ghost use Rattle.log_check.specs.Judged.{CountsByLog, Judges, KeepsFault};
ghost use Rattle.log_model.specs.Log.{most_lines};
ghost use Rattle.log_check.specs.Reading.{AnswersLast, AnswersNext, GoesOnReading, IsBehind, IsEndOf, IsFrontLast, IsFrontNext};

use crate::check_fault::CheckFault;
use crate::followed::Followed;
use crate::place::Place;
use crate::turning::take;
use crate::verdict::Verdict;
use arrayvec::ArrayVec;
use log_laws::legal_lines_are_short;
use log_reasons::LineReason;
use outside_io::{Line, Lines, Source, keep_front};
use std::alloc::Global;
use vm_types::Config;

/// How many lines a log may have.
const MOST_LINES: u32 = 1 << 24;

/// What the next line is.
#[derive(Drop)]
enum Step {
    /// A legal next one, behind which a line stands here.
    On(Place),
    /// The log is judged.
    Judged(Verdict),
}

/// What is said where a log ends behind so many lines, all of them legal.
fn end_of(place: &Place, lines: u32) -> Verdict
    requires { lines ≤ MOST_LOG_LINES }
    ensures { IsEndOf place.now lines result }
{
    match place {
        Place::Ending(entries, left) => {
            if left.is_empty() {
                Verdict::Legal(*entries)
            } else {
                Verdict::Fault(lines + 1, LineReason::Ended)
            }
        }
        Place::Entries => Verdict::Fault(lines + 1, LineReason::Ended),
        Place::Report(_) => Verdict::Fault(lines + 1, LineReason::Ended),
        Place::Rundown(_) => Verdict::Fault(lines + 1, LineReason::Ended),
    }
}

/// Reads the next line behind so many legal ones.
fn take_next<S: Source>(
    alloc: Global,
    followed: &mut Followed<'_>,
    place: Place,
    lines: &mut Lines<'_, S>,
    out: &mut ArrayVec<u8, 256>,
    count: u32,
) -> Result<Step, CheckFault>
    requires followed { IsFollowed followed.old }
    requires few { count < MOST_LOG_LINES }
    requires fewer { length followed.old.past.past ≤ count }
    ensures text { AnswersNext followed.old place count (bytes_left S.seen lines.old) followed.new (bytes_left S.seen lines.new) result }
    ensures front { (text : List ℕ) → IsBehind text count (bytes_left S.seen lines.old) → IsFrontNext text count (bytes_left S.seen lines.new) out.new.items result }
    ensures on { IfOk result (GoesOnReading followed.old followed.new count) }
    ensures known { IsSome (S.seen lines.old.source.now).left → IsSome (S.seen lines.new.source.now).left }
    ensures faults { CountsByLog result (S.seen lines.old.source.now).failures (S.seen lines.new.source.now).failures }
    ensures faults_later { (S.seen lines.old.source.now).failures ≤ (S.seen lines.new.source.now).failures }
    ensures same_reference { lines.new.source.ghost_name ≡ lines.old.source.ghost_name }
{
    match lines.next(out) {
        Ok(Line::Text { ended: true }) => match take(alloc, followed, place, out.as_slice()) {
            Ok(Ok(next)) => Ok(Step::On(next)),
            Ok(Err(why)) => Ok(Step::Judged(Verdict::Fault(count + 1, why))),
            Err(_) => Err(CheckFault::NoMemory),
        },
        Ok(Line::Text { ended: false }) => Ok(Step::Judged(Verdict::Fault(
            count + 1,
            LineReason::NotEnded,
        ))),
        Ok(Line::Long) => {
            legal_lines_are_short();
            Ok(Step::Judged(Verdict::Fault(count + 1, LineReason::TooLong)))
        }
        Ok(Line::End) => Ok(Step::Judged(end_of(&place, count))),
        Err(_) => Err(CheckFault::ReadFault),
    }
}

/// What is said behind as many legal lines as a log may have.
fn judge_last<S: Source>(
    followed: &Followed<'_>,
    place: &Place,
    lines: &mut Lines<'_, S>,
    out: &mut ArrayVec<u8, 256>,
) -> Result<Verdict, CheckFault>
    ensures text { AnswersLast followed.now.past place.now (bytes_left S.seen lines.old) (bytes_left S.seen lines.new) result }
    ensures front { (text : List ℕ) → IsBehind text most_lines (bytes_left S.seen lines.old) → IsFrontLast text out.new.items result }
    ensures known { IsSome (S.seen lines.old.source.now).left → IsSome (S.seen lines.new.source.now).left }
    ensures faults { CountsByLog result (S.seen lines.old.source.now).failures (S.seen lines.new.source.now).failures }
    ensures faults_later { (S.seen lines.old.source.now).failures ≤ (S.seen lines.new.source.now).failures }
    ensures same_reference { lines.new.source.ghost_name ≡ lines.old.source.ghost_name }
{
    match lines.next(out) {
        Ok(Line::End) => Ok(end_of(place, MOST_LINES)),
        Ok(Line::Text { ended: _ }) => Err(CheckFault::TooMany),
        Ok(Line::Long) => Err(CheckFault::TooMany),
        Err(_) => Err(CheckFault::ReadFault),
    }
}

/// Reads the lines one after the other from the first, and judges them; `kept` gets the first bytes of
/// the line at which the log is at fault.
fn judge<S: Source>(
    alloc: Global,
    followed: &mut Followed<'_>,
    lines: &mut Lines<'_, S>,
    kept: &mut ArrayVec<u8, 80>,
) -> Result<Verdict, CheckFault>
    requires followed { IsFollowed followed.old }
    requires unread { followed.old.past ≡ record { config = followed.old.past.config; past = [] } }
    ensures text { IfSome (bytes_left S.seen lines.old) (λ text. Judges followed.old.past.config result text (bytes_left S.seen lines.new)) }
    ensures kept { KeepsFault result (bytes_left S.seen lines.old) kept.new.items }
    ensures known { IsSome (S.seen lines.old.source.now).left → IsSome (S.seen lines.new.source.now).left }
    ensures faults { CountsByLog result (S.seen lines.old.source.now).failures (S.seen lines.new.source.now).failures }
    ensures faults_later { (S.seen lines.old.source.now).failures ≤ (S.seen lines.new.source.now).failures }
    ensures same_reference { lines.new.source.ghost_name ≡ lines.old.source.ghost_name }
{
    let mut place = Place::Entries;
    let mut out = ArrayVec::new();
    'lines: for count in 0..MOST_LINES {
        match take_next(alloc, followed, place, lines, &mut out, count) {
            Ok(Step::On(next)) => place = next,
            Ok(Step::Judged(verdict)) => {
                keep_front(kept, out.as_slice());
                return Ok(verdict);
            }
            Err(fault) => return Err(fault),
        }
    }
    let answer = judge_last(followed, &place, lines, &mut out);
    keep_front(kept, out.as_slice());
    answer
}

/// Whether the lines are a legal log of a configuration, up to the first that isn't a legal next one or
/// to their end, and why it isn't. The time for a line doesn't grow with the log, and of its lines none is kept but
/// the first 80 bytes of the one at which it is at fault, in `kept`.
///
/// # Errors
/// `ReadFault` only if the source's count of failures rose; the lines taken before are legal. `NoMemory`
/// if memory ran out, at most one line behind legal ones. `TooMany` if as many lines as a log may have
/// are legal, and a byte follows.
pub fn check_log<S: Source>(
    alloc: Global,
    config: &Config,
    lines: &mut Lines<'_, S>,
    kept: &mut ArrayVec<u8, 80>,
) -> Result<Verdict, CheckFault>
    requires formed { IsWellFormed config.now }
    ensures text { IfSome (bytes_left S.seen lines.old) (λ text. Judges config.now result text (bytes_left S.seen lines.new)) }
    ensures kept { KeepsFault result (bytes_left S.seen lines.old) kept.new.items }
    ensures known { IsSome (S.seen lines.old.source.now).left → IsSome (S.seen lines.new.source.now).left }
    ensures faults { CountsByLog result (S.seen lines.old.source.now).failures (S.seen lines.new.source.now).failures }
    ensures faults_later { (S.seen lines.old.source.now).failures ≤ (S.seen lines.new.source.now).failures }
    ensures same_reference { lines.new.source.ghost_name ≡ lines.old.source.ghost_name }
{
    let mut followed = Followed::new(alloc, config)?;
    judge(alloc, &mut followed, lines, kept)
}
