ghost use Rattle.std.specs.Prelude.{◌≡◌, ◌⊎◌, ◌≤◌, ◌++◌, length, IfOk};
ghost use Rattle.vm_types.specs.declared.limits.TheConstants.{MOST_STUDY_FRAMES};
ghost use Rattle.vm_types.specs.Configuration.{IsWellFormed};
ghost use Rattle.command_ends.specs.Concludes.{EndsAnswered};
ghost use Rattle.command_ends.specs.Ends.{Ends};
ghost use Rattle.command_ends.specs.Tells.{IsTrace};
ghost use Rattle.command_ends.specs.Wrongs.{IsWrongText};
ghost use Rattle.command_calls.specs.CommandCall.{IsCommandCall, WithWrong};
ghost use Rattle.command_calls.specs.Moves.{HasNoFailure, moves};
ghost use Rattle.run_words.specs.Text.{status_line};
ghost use Rattle.study_command.specs.StudyText.{IsStudyAnswer, StudyTells, answer_lines};
ghost use Rattle.study_command.specs.Undeclared.{EndsStudied, undeclared};

use crate::answers::{Answers, answers_of};
use crate::printing::print_answers;
use crate::words::Study;
use arrayvec::ArrayVec;
use command_calls::CallEnds;
use command_ends::{Status, Wrong, end_fault, end_with, wrong_of};
use disk_trait::Depot;
use outside_io::{Sink, Source};
use std::alloc::Global;
use trace_reader::{TraceFault, read_trace};
use vm_types::{Config, Proc};

// Writes the lines and the status 0.
fn end_answers<K: Sink>(answers: &Answers, frames: u32, sink: &mut K) -> Status
    requires { length answers.now.lru.items ≤ MOST_STUDY_FRAMES }
    ensures { Ends (K.seen sink.old) (K.seen sink.new) 0
        (answer_lines answers.now.pages answers.now.distinct frames answers.now.ring answers.now.lru.items
        answers.now.least.faults answers.now.drops.items answers.now.least.cuts.items ++ status_line 0) result.0 }
{
    match print_answers(answers, frames, sink) {
        Ok(()) => end_with(0, sink),
        Err(_) => Status(4),
    }
}

// Studies a configuration, and writes what there is to say.
fn study_config<K: Sink>(alloc: Global, config: &Config, study: Study, sink: &mut K) -> Status
    requires frames { (1 ≤ study.frames) × (study.frames ≤ MOST_STUDY_FRAMES) }
    requires formed { IsWellFormed config.now }
    ensures { EndsAnswered (IsStudyAnswer study config.now) (K.seen sink.old) (K.seen sink.new) result.0 }
{
    match answers_of(alloc, config, study) {
        Ok(answers) => end_answers(&answers, study.frames, sink),
        Err(_) => end_with(7, sink),
    }
}

// That the trace doesn't have the process, if so.
fn undeclared(config: &Config, process: Proc) -> Option<Wrong>
    ensures { result ≡ undeclared config.now process }
{
    if config.procs.items().len() <= process.0 as usize {
        Some(Wrong::Undeclared(process))
    } else {
        None
    }
}

// Writes what there is to say of a trace, or what is wrong with it, and the status.
fn conclude<K: Sink>(
    alloc: Global,
    read: Result<Config, TraceFault>,
    study: Study,
    sink: &mut K,
) -> (Status, Option<Wrong>)
    requires frames { (1 ≤ study.frames) × (study.frames ≤ MOST_STUDY_FRAMES) }
    requires formed { IfOk read IsWellFormed }
    ensures { EndsStudied study read (K.seen sink.old) (K.seen sink.new) result.0.0 result.1 }
{
    match read {
        Ok(config) => {
            let status = study_config(alloc, &config, study, sink);
            (status, undeclared(&config, study.process))
        }
        Err(fault) => (end_fault(fault, sink), wrong_of(fault)),
    }
}

/// Reads a trace from the source, runs nothing, and writes to the sink what the references of a process
/// in its body cost with so many frames: `PAGES` with how many references and how many distinct pages
/// there are; `RING` with the faults in a working set's ring; an `LRU` for one frame, for two, and so
/// on, with the faults if the least recently used page is replaced; `LEAST` with the least number of
/// faults; a `DROP` for each place, from 1, whose page doesn't keep its frame until it is referenced
/// again; a `CUT` for each place that shows that no schedule has fewer; and the status line. Each line
/// is one write of a whole text. The status is 0 for a trace, 2 if the input is none, 3 only if a read
/// failed, 4 only if a write failed or took nothing, 7 if memory ran out. It answers besides what is
/// wrong with the input, or that the trace doesn't have the process, and keeps the first 80 bytes of a faulty
/// line in `kept`.
///
/// Takes time as the references, and for LRU as a 128th part of those between two to the same page.
pub fn study_trace<S: Source, K: Sink, D: Depot>(
    alloc: Global,
    study: Study,
    ends: &mut CallEnds<S, K, D>,
    kept: &mut ArrayVec<u8, 80>,
) -> (Status, Option<Wrong>)
    requires { (1 ≤ study.frames) × (study.frames ≤ MOST_STUDY_FRAMES) }
    // A status with the text that goes with it, and what is wrong with the input by that text.
    ensures call { IsCommandCall (WithWrong (StudyTells study) result.1)
        (moves S.seen K.seen D.seen ends.old ends.new) result.0.0 }
    // If the input is a trace and nothing fails, the status is 0, or memory ran out.
    ensures complete { IsTrace (S.seen ends.old.source) → HasNoFailure (moves S.seen K.seen D.seen ends.old ends.new)
        → (result.0.0 ≡ 0) ⊎ (result.0.0 ≡ 7) }
    // Of a faulty line the first bytes were kept.
    ensures kept { IsWrongText result.1 (S.seen ends.old.source).left kept.new.items }
    ensures no_block { ends.new.depot ≡ ends.old.depot }
{
    let read = read_trace(alloc, &mut ends.source, kept);
    conclude(alloc, read, study, &mut ends.output)
}
