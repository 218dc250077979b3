ghost use Rattle.std.specs.Prelude.{◌≡◌, ◌+◌, ◌≤◌, ◌++◌, All, List, length, decimal};
ghost use Rattle.arrayvec.specs.ArrayVec.{array_vec_len};
ghost use Rattle.outside_io.specs.Writes.{Writes};
ghost use Rattle.vm_journal.specs.declared.entry.Entry.{Entry};
ghost use Rattle.run_record.specs.Tallies.{tallies_of};
ghost use Rattle.std.specs.List.{flat_map};
ghost use Rattle.run_words.specs.Text.{ended};
ghost use Rattle.run_commands.specs.MakeText.{answered_line, entries_line, made_line, make_lines, managed_line, paged_line, part_text, summary_lines};

use crate::counts::{Counts, counts_in};
use crate::make::Make;
use arrayvec::ArrayVec;
use command_ends::write_line;
use outside_io::{Sink, WriteFault};
use vm_text::{push_decimal, push_word};

/// Adds a word of at most 140 bytes together with those before it, and a number in decimal digits.
fn push_number(out: &mut ArrayVec<u8, 160>, word: &[u8], number: u64)
    requires { array_vec_len out.old + length word.now ≤ 140 }
    ensures items { out.new.items ≡ out.old.items ++ word.now ++ decimal number }
    ensures len { array_vec_len out.new ≤ array_vec_len out.old + length word.now + 20 }
{
    push_word(out, word);
    push_decimal(out, number);
}

/// Writes a line of words, each with its number.
fn print_numbers<K: Sink>(parts: &[(&[u8], u64)], sink: &mut K) -> Result<(), WriteFault>
    requires few { length parts.now ≤ 5 }
    requires short { All (λ part. length part.0.now ≤ 8) parts.now }
    ensures { Writes (K.seen sink.old) (K.seen sink.new) result (ended (flat_map part_text parts.now)) }
{
    let mut out = ArrayVec::new();
    for part in parts {
        push_number(&mut out, part.0, part.1);
    }
    write_line(out, sink)
}

/// Which trace was made.
fn print_made<K: Sink>(make: Make, sink: &mut K) -> Result<(), WriteFault>
    ensures { Writes (K.seen sink.old) (K.seen sink.new) result (made_line make) }
{
    let seed = u64::from(make.seed);
    let procs = u64::from(make.procs);
    let refs = u64::from(make.refs);
    print_numbers(&[(b"MADE ", seed), (b" ", procs), (b" ", refs)], sink)
}

/// How many references were answered, and how many refused.
fn print_answered<K: Sink>(counts: &Counts, sink: &mut K) -> Result<(), WriteFault>
    ensures { Writes (K.seen sink.old) (K.seen sink.new) result (answered_line counts.now) }
{
    print_numbers(
        &[(b"DONE ", counts.done), (b" DENIED ", counts.denied)],
        sink,
    )
}

/// How many pages came into frames and left working sets, and how many transfers began.
fn print_paged<K: Sink>(counts: &Counts, sink: &mut K) -> Result<(), WriteFault>
    ensures { Writes (K.seen sink.old) (K.seen sink.new) result (paged_line counts.now) }
{
    print_numbers(
        &[
            (b"ZERO ", counts.zeros),
            (b" BACK ", counts.backs),
            (b" IN ", counts.reads),
            (b" OUT ", counts.writes),
            (b" EVICT ", counts.evictions),
        ],
        sink,
    )
}

/// How often a process changed its status, and how often a limit was adjusted.
fn print_managed<K: Sink>(counts: &Counts, sink: &mut K) -> Result<(), WriteFault>
    ensures { Writes (K.seen sink.old) (K.seen sink.new) result (managed_line counts.now) }
{
    print_numbers(
        &[(b"TURN ", counts.turns), (b" LIMIT ", counts.limits)],
        sink,
    )
}

/// How many entries there are.
fn print_all<K: Sink>(all: u64, sink: &mut K) -> Result<(), WriteFault>
    ensures { Writes (K.seen sink.old) (K.seen sink.new) result (entries_line all) }
{
    print_numbers(&[(b"ENTRIES ", all)], sink)
}

/// The lines, by the counts of the entries, and of all of them.
fn print_lines<K: Sink>(
    make: Make,
    counts: &Counts,
    all: u64,
    sink: &mut K,
) -> Result<(), WriteFault>
    ensures { Writes (K.seen sink.old) (K.seen sink.new) result (summary_lines make counts.now all) }
{
    print_made(make, sink)?;
    print_answered(counts, sink)?;
    print_paged(counts, sink)?;
    print_managed(counts, sink)?;
    print_all(all, sink)
}

/// Writes how many of the entries of a made trace's run are of each kind that is counted, by how many
/// there are of each kind, in the order of `What`, and of all; each line in one write of a whole text.
/// Doesn't allocate.
///
/// # Errors
/// `Failed` only if the sink's count of failures rose. `NoneTaken` exactly if its count of stalls
/// rose. After either the sink has taken less than the lines, a prefix of them.
pub fn print_summary<K: Sink>(
    make: Make,
    all: u64,
    kinds: &[u64; 16],
    sink: &mut K,
) -> Result<(), WriteFault>
    ensures { (entries : List Entry) → all ≡ length entries → kinds.now ≡ tallies_of entries
        → Writes (K.seen sink.old) (K.seen sink.new) result (make_lines make entries) }
{
    print_lines(make, &counts_in(kinds), all, sink)
}
