//! The front of a text that has a trace and then a log.

ghost use Rattle.std.specs.Prelude.{◌≡◌, ◌≤◌, ℕ, List, Option, IfOk, IfErr, IfSome, IsSome, OnOk, if◌then◌else◌};
ghost use Rattle.vm_types.specs.Configuration.{IsWellFormed};
ghost use Rattle.outside_io.specs.BytesLeft.{bytes_left};
ghost use Rattle.trace_words.specs.Words.{words};
ghost use Rattle.trace_lines.specs.Grammar.{content};
ghost use Rattle.trace_reader.specs.Answer.{FaultsByTrace};
ghost use Rattle.trace_reader.specs.Head.{by_log_word, head_line};
ghost use Rattle.trace_reader.specs.HeadAnswer.{HeadAnswers, HasTakenHead, IsHeadLineAtFault, AnswersNext, AnswersLine, IsKeptNext, IsTold, CountsByHead};
ghost use Rattle.trace_reader.specs.LineText.{IsTextOf};
ghost use Rattle.trace_reader.specs.LogWord.{said_by_words, plain};
ghost use Rattle.trace_reader.specs.Meaning.{next_line};
ghost use Rattle.trace_reader.specs.Stream.{IsReading, KeepsLine};

use crate::draft::Draft;
use crate::fault::TraceFault;
use crate::read::Reader;
use arrayvec::ArrayVec;
use outside_io::{Line, Lines, Source, keep_front};
use std::alloc::Global;
use trace_lines::{Breach, Place, content, judge};
use trace_words::{Cause, is, next_word};
use vm_types::Config;

// A line after END whose first word no line of a trace has, by its words.
enum AfterEnd {
    // The one word LOG.
    Log,
    // LOG and more words.
    Misplaced,
    // Another first word.
    Unknown,
}

fn by_words(line: &[u8]) -> AfterEnd
    ensures { said_by_words result ≡ by_log_word (words (content line.now)) }
{
    let Some((first, rest)) = next_word(content(line)) else {
        return AfterEnd::Unknown;
    };
    if !is(first, b"LOG") {
        return AfterEnd::Unknown;
    }
    match next_word(rest) {
        None => AfterEnd::Log,
        Some(_) => AfterEnd::Misplaced,
    }
}

// Whether the next line stands after END, and no line of a trace has its first word.
fn is_unknown(reader: &Reader, line: &[u8]) -> bool
    requires { IsReading reader.now.draft reader.now.number }
    ensures { head_line reader.now.number reader.now.draft.part line.now
        ≡ (if result then by_log_word (words (content line.now)) else plain (next_line reader.now.number reader.now.draft.part line.now)) }
{
    match reader.draft.part.place {
        Place::Ended => match judge(reader.number, &reader.draft.part, &reader.draft.seen, line) {
            Err(breach) => match breach.cause {
                Cause::UnknownWord => true,
                _ => false,
            },
            Ok(_) => false,
        },
        _ => false,
    }
}

// Takes the next line, and says whether it begins the log; or keeps its first bytes if it is at fault.
fn take_head_line(
    reader: &mut Reader,
    line: &[u8],
    kept: &mut ArrayVec<u8, 80>,
) -> Result<bool, TraceFault>
    requires { IsReading reader.old.draft reader.old.number }
    ensures ok { IfOk result (HasTakenHead reader.old.draft reader.old.number line.now reader.new.draft reader.new.number) }
    ensures err { IfErr result (IsHeadLineAtFault reader.old.draft.part reader.old.number line.now) }
    ensures kept { IfErr result (KeepsLine reader.old.number line.now kept.new.items) }
{
    if is_unknown(reader, line) {
        return match by_words(line) {
            AfterEnd::Log => Ok(true),
            AfterEnd::Misplaced => {
                keep_front(kept, line);
                let breach = Breach::at_word(2, Cause::Misplaced);
                Err(TraceFault::Line(reader.number, breach))
            }
            AfterEnd::Unknown => {
                keep_front(kept, line);
                let breach = Breach::at_word(1, Cause::UnknownWord);
                Err(TraceFault::Line(reader.number, breach))
            }
        };
    }
    match reader.take_line(line, kept) {
        Ok(()) => Ok(false),
        Err(fault) => Err(fault),
    }
}

// Takes a line, which byte 10 ended or the text's end.
fn take_ended(
    reader: &mut Reader,
    line: &[u8],
    ended: bool,
    kept: &mut ArrayVec<u8, 80>,
) -> Result<bool, TraceFault>
    requires { IsReading reader.old.draft reader.old.number }
    ensures first_bytes { IfErr result (KeepsLine reader.old.number line.now kept.new.items) }
    ensures kept { IfOk result (IsKeptNext reader.new.draft reader.old.number reader.new.number) }
    ensures line { AnswersLine reader.old.draft.part reader.old.number ended line.now reader.new.draft.part reader.new.number result }
    ensures no_read { (count : ℕ) → CountsByHead result count count }
{
    match take_head_line(reader, line, kept) {
        Ok(true) => Ok(true),
        Ok(false) => {
            if ended {
                Ok(false)
            } else {
                Err(TraceFault::Unfinished)
            }
        }
        Err(fault) => Err(fault),
    }
}

// Reads the next line, and says whether it begins the log; or keeps its first bytes if it is at fault.
fn next_front<S: Source>(
    lines: &mut Lines<'_, S>,
    reader: &mut Reader,
    out: &mut ArrayVec<u8, 256>,
    kept: &mut ArrayVec<u8, 80>,
) -> Result<bool, TraceFault>
    requires { IsReading reader.old.draft reader.old.number }
    ensures first_bytes { (told : Option (List ℕ)) → IsTold told reader.old.draft.part reader.old.number (bytes_left S.seen lines.old)
        → IfErr result (λ fault. IsTextOf fault told kept.new.items) }
    ensures kept { IfOk result (IsKeptNext reader.new.draft reader.old.number reader.new.number) }
    ensures text { AnswersNext reader.old.draft.part reader.old.number (bytes_left S.seen lines.old) reader.new.draft.part reader.new.number (bytes_left S.seen lines.new) result }
    ensures known { IsSome (S.seen lines.old.source.now).left → IsSome (S.seen lines.new.source.now).left }
    ensures faults { CountsByHead result (S.seen lines.old.source.now).failures (S.seen lines.new.source.now).failures }
    ensures faults_later { (S.seen lines.old.source.now).failures ≤ (S.seen lines.new.source.now).failures }
    ensures same_reference { lines.new.source.ghost_name ≡ lines.old.source.ghost_name }
{
    match lines.next(out) {
        Ok(Line::Text { ended }) => take_ended(reader, out.as_slice(), ended, kept),
        Ok(Line::Long) => {
            keep_front(kept, out.as_slice());
            let breach = Breach::at_word(0, Cause::LineTooLong);
            Err(TraceFault::Line(reader.number, breach))
        }
        Ok(Line::End) if reader.number == 1 => Err(TraceFault::Empty),
        Ok(Line::End) => Err(TraceFault::Unfinished),
        Err(_) => Err(TraceFault::ReadFault),
    }
}

/// The configuration of a trace behind which a log stands: the part up to and with its line LOG, which is
/// judged as a line of the trace. The bytes of the log are left. Of the first faulty line the first 80 bytes
/// are kept in `kept`.
///
/// # Errors
/// `Line` is the first faulty line with the first rule that it breaks; after END each line that isn't
/// skipped and isn't the one word LOG is faulty. `Empty` if the text has no bytes. `Unfinished` if it has some
/// and ends before LOG. `ReadFault`
/// only if the source's count of failures rose, and no line taken before is at fault. `NoMemory` if memory
/// ran out at a line that isn't at fault.
pub fn read_head<S: Source>(
    alloc: Global,
    lines: &mut Lines<'_, S>,
    kept: &mut ArrayVec<u8, 80>,
) -> Result<Config, TraceFault>
    ensures well_formed { IfOk result IsWellFormed }
    ensures text { IfSome (bytes_left S.seen lines.old) (λ text. HeadAnswers result text (bytes_left S.seen lines.new)) }
    ensures kept { IfErr result (λ fault. IsTextOf fault (bytes_left S.seen lines.old) kept.new.items) }
    ensures known { IsSome (S.seen lines.old.source.now).left → IsSome (S.seen lines.new.source.now).left }
    ensures faults { FaultsByTrace result (S.seen lines.old.source.now).failures (S.seen lines.new.source.now).failures }
    ensures faults_later { (S.seen lines.old.source.now).failures ≤ (S.seen lines.new.source.now).failures }
    ensures same_reference { lines.new.source.ghost_name ≡ lines.old.source.ghost_name }
{
    let mut reader = Reader {
        alloc,
        draft: Draft::new(alloc),
        number: 1,
    };
    let mut out = ArrayVec::new();
    'front: loop {
        match next_front(lines, &mut reader, &mut out, kept) {
            Ok(true) => return Ok(reader.draft.part.config),
            Ok(false) => {}
            Err(fault) => return Err(fault),
        }
    }
}
