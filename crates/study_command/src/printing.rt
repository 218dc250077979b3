ghost use Rattle.std.specs.Prelude.{◌≤◌, length};
ghost use Rattle.vm_types.specs.declared.limits.TheConstants.{MOST_STUDY_FRAMES};
ghost use Rattle.outside_io.specs.Writes.{Writes};
ghost use Rattle.study_command.specs.StudyText.{answer_lines, faults_line, lru_lines, pages_line, place_line, place_lines};

use crate::answers::Answers;
use arrayvec::ArrayVec;
use command_ends::{push_counted, write_line};
use outside_io::{Sink, WriteFault};

// How many references there are, and to how many distinct pages.
fn print_pages<K: Sink>(pages: u32, distinct: u32, sink: &mut K) -> Result<(), WriteFault>
    ensures { Writes (K.seen sink.old) (K.seen sink.new) result (pages_line pages distinct) }
{
    let mut out = ArrayVec::new();
    push_counted(&mut out, b"PAGES ", pages);
    push_counted(&mut out, b" DISTINCT ", distinct);
    write_line(out, sink)
}

// The faults with so many frames.
fn print_faults<K: Sink>(
    word: &[u8],
    frames: u32,
    faults: u32,
    sink: &mut K,
) -> Result<(), WriteFault>
    requires { length word.now ≤ 20 }
    ensures { Writes (K.seen sink.old) (K.seen sink.new) result (faults_line word.now frames faults) }
{
    let mut out = ArrayVec::new();
    push_counted(&mut out, word, frames);
    push_counted(&mut out, b" ", faults);
    write_line(out, sink)
}

// The faults with one frame, with two, and so on.
fn print_lru<K: Sink>(lru: &[u32], sink: &mut K) -> Result<(), WriteFault>
    requires { length lru.now ≤ MOST_STUDY_FRAMES }
    ensures { Writes (K.seen sink.old) (K.seen sink.new) result (lru_lines 1 lru.now) }
{
    for (i, faults) in lru.iter().enumerate() {
        print_faults(b"LRU ", i as u32 + 1, *faults, sink)?;
    }
    Ok(())
}

fn print_place<K: Sink>(word: &[u8], place: u32, sink: &mut K) -> Result<(), WriteFault>
    requires { length word.now ≤ 20 }
    ensures { Writes (K.seen sink.old) (K.seen sink.new) result (place_line word.now place) }
{
    let mut out = ArrayVec::new();
    push_counted(&mut out, word, place);
    write_line(out, sink)
}

// A line for each place.
fn print_places<K: Sink>(word: &[u8], places: &[u32], sink: &mut K) -> Result<(), WriteFault>
    requires { length word.now ≤ 20 }
    ensures { Writes (K.seen sink.old) (K.seen sink.new) result (place_lines word.now places.now) }
{
    for place in places {
        print_place(word, *place, sink)?;
    }
    Ok(())
}

/// Writes the lines before the status, each in one write of a whole text.
pub(crate) fn print_answers<K: Sink>(
    answers: &Answers,
    frames: u32,
    sink: &mut K,
) -> Result<(), WriteFault>
    requires { length answers.now.lru.items ≤ MOST_STUDY_FRAMES }
    ensures { Writes (K.seen sink.old) (K.seen sink.new) result
        (answer_lines answers.now.pages answers.now.distinct frames answers.now.ring answers.now.lru.items
        answers.now.least.faults answers.now.drops.items answers.now.least.cuts.items) }
{
    print_pages(answers.pages, answers.distinct, sink)?;
    print_faults(b"RING ", frames, answers.ring, sink)?;
    print_lru(&answers.lru, sink)?;
    print_faults(b"LEAST ", frames, answers.least.faults, sink)?;
    print_places(b"DROP ", &answers.drops, sink)?;
    print_places(b"CUT ", &answers.least.cuts, sink)
}
