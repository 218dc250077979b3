//! Reading a trace and a log.

ghost use Rattle.std.specs.Prelude.{◌≡◌, ◌≤◌, length, IfSome};
ghost use Rattle.outside_io.specs.BytesLeft.{bytes_left, pending};
ghost use Rattle.check_command.specs.Answers.{CountsByCheck, IsRead, KeepsText, Says};

use arrayvec::ArrayVec;
use log_check::{CheckFault, Verdict, check_log};
use outside_io::{Lines, Source};
use std::alloc::Global;
use trace_reader::{TraceFault, read_head};

// The verdict on the log in the lines, or why there is none; or what is wrong with the trace before it.
fn judge_lines<S: Source>(
    alloc: Global,
    lines: &mut Lines<'_, S>,
    kept: &mut ArrayVec<u8, 80>,
) -> Result<Result<Verdict, CheckFault>, TraceFault>
    ensures text { IfSome (bytes_left S.seen lines.old) (λ text. Says result text (bytes_left S.seen lines.new)) }
    ensures kept { KeepsText result (bytes_left S.seen lines.old) kept.new.items }
    ensures faults { CountsByCheck result (S.seen lines.old.source.now).failures (S.seen lines.new.source.now).failures }
    ensures faults_later { (S.seen lines.old.source.now).failures ≤ (S.seen lines.new.source.now).failures }
    ensures same_reference { lines.new.source.ghost_name ≡ lines.old.source.ghost_name }
{
    match read_head(alloc, lines, kept) {
        Ok(config) => Ok(check_log(alloc, &config, lines, kept)),
        Err(fault) => Err(fault),
    }
}

// Lets go of the lines. At most as many bytes as their buffer has were read and not handed out.
fn let_go<S: Source>(lines: Lines<'_, S>)
    ensures few { length (pending lines.entry.buffer lines.entry.next lines.entry.filled) ≤ 4096 }
    ensures kept { lines.exit.0.now ≡ lines.entry.source.now }
{}

/// The verdict on the log that the source has behind a trace, or why there is none; or what is wrong with
/// the trace. Of a faulty line the first 80 bytes are kept.
pub(crate) fn judge_source<S: Source>(
    alloc: Global,
    source: &mut S,
    kept: &mut ArrayVec<u8, 80>,
) -> Result<Result<Verdict, CheckFault>, TraceFault>
    ensures text { IfSome (S.seen source.old).left (λ text. IsRead (Says result text) (S.seen source.new).left) }
    ensures kept { KeepsText result (S.seen source.old).left kept.new.items }
    ensures faults { CountsByCheck result (S.seen source.old).failures (S.seen source.new).failures }
    ensures faults_later { (S.seen source.old).failures ≤ (S.seen source.new).failures }
{
    let mut lines = Lines::new(source);
    let answer = judge_lines(alloc, &mut lines, kept);
    let_go(lines);
    answer
}
