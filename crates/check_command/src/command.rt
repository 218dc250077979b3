ghost use Rattle.std.specs.Prelude.{◌≡◌, ◌⊎◌};
ghost use Rattle.command_ends.specs.Ends.{Ends};
ghost use Rattle.command_ends.specs.Wrongs.{IsWrongText};
ghost use Rattle.command_calls.specs.CommandCall.{IsCommandCall, WithWrong};
ghost use Rattle.command_calls.specs.Moves.{HasNoFailure, moves};
ghost use Rattle.check_command.specs.CheckTells.{CheckTells, HasCheckInput};
ghost use Rattle.check_command.specs.Verdicts.{EndsJudged, verdict_status, verdict_text, wrong_in_log};

use crate::ending::{end_at_fault, end_legal, end_too_long};
use crate::judging::judge_source;
use arrayvec::ArrayVec;
use command_calls::CallEnds;
use command_ends::{Status, Wrong, end_fault, end_with, wrong_of};
use disk_trait::Depot;
use log_check::{CheckFault, Verdict};
use outside_io::{Sink, Source};
use std::alloc::Global;
use trace_reader::TraceFault;

// Writes the verdict, or why there is none, and the status.
fn end_verdict<K: Sink>(verdict: &Result<Verdict, CheckFault>, sink: &mut K) -> Status
    ensures { Ends (K.seen sink.old) (K.seen sink.new) (verdict_status verdict.now) (verdict_text verdict.now) result.0 }
{
    match verdict {
        Ok(Verdict::Legal(entries)) => end_legal(*entries, sink),
        Ok(Verdict::Fault(number, _)) => end_at_fault(*number, sink),
        Err(CheckFault::TooMany) => end_too_long(sink),
        Err(CheckFault::ReadFault) => end_with(3, sink),
        Err(CheckFault::NoMemory) => end_with(7, sink),
    }
}

// What is wrong with the log by its verdict.
fn wrong_in_log(verdict: Result<Verdict, CheckFault>) -> Option<Wrong>
    ensures { result ≡ wrong_in_log verdict }
{
    match verdict {
        Ok(Verdict::Legal(_)) => None,
        Ok(Verdict::Fault(number, reason)) => Some(Wrong::LogLine(number, reason)),
        Err(CheckFault::TooMany) => Some(Wrong::LogTooLong),
        Err(CheckFault::ReadFault) => None,
        Err(CheckFault::NoMemory) => None,
    }
}

// Writes the verdict, or what is wrong with the trace before the log, and the status.
fn conclude<K: Sink>(
    judged: Result<Result<Verdict, CheckFault>, TraceFault>,
    sink: &mut K,
) -> (Status, Option<Wrong>)
    ensures { EndsJudged judged (K.seen sink.old) (K.seen sink.new) result.0.0 result.1 }
{
    match judged {
        Ok(verdict) => (end_verdict(&verdict, sink), wrong_in_log(verdict)),
        Err(fault) => (end_fault(fault, sink), wrong_of(fault)),
    }
}

/// Reads a trace up to its line END, and behind a line `LOG` a log to the end of the input, runs nothing,
/// and writes whether the log is legal: `LOG OK` with how many entries it has, and status 0; `LOG FAULT`
/// with the number of the first line of the log, from 1, that isn't a legal next line, and status 8; or
/// `LOG TOOMANY` if it goes on after 16777216 legal lines, and status 2. The status line follows. Each line is
/// one write of a whole text. The status is 2 too if the trace is faulty or unfinished, with the line that
/// says so; 3 only if a read failed, 4 only if a write failed or took nothing, 7 if memory ran out. It answers
/// besides what is wrong with the input, if anything is, and keeps the first 80 bytes of the faulty line in
/// `kept`.
pub fn check<S: Source, K: Sink, D: Depot>(
    alloc: Global,
    ends: &mut CallEnds<S, K, D>,
    kept: &mut ArrayVec<u8, 80>,
) -> (Status, Option<Wrong>)
    // A status with the text that goes with it, and what is wrong with the input by that text.
    ensures call { IsCommandCall (WithWrong (λ source depot. CheckTells source.before source.after) result.1)
        (moves S.seen K.seen D.seen ends.old ends.new) result.0.0 }
    // If the input is a trace and a log that isn't too long, and nothing fails, there is a verdict on the log,
    // or memory ran out.
    ensures complete { HasCheckInput (S.seen ends.old.source) → HasNoFailure (moves S.seen K.seen D.seen ends.old ends.new)
        → (result.0.0 ≡ 0) ⊎ ((result.0.0 ≡ 8) ⊎ (result.0.0 ≡ 7)) }
    // Of the faulty line the first bytes were kept.
    ensures kept { IsWrongText result.1 (S.seen ends.old.source).left kept.new.items }
    ensures no_block { ends.new.depot ≡ ends.old.depot }
{
    let judged = judge_source(alloc, &mut ends.source, kept);
    conclude(judged, &mut ends.output)
}
