ghost use Rattle.std.specs.Prelude.{◌≡◌, ◌⊎◌, ◌++◌, List, ℕ};
ghost use Rattle.std.specs.declared.option.Option.{Option};
ghost use Rattle.outside_io.specs.Writes.{Writes};
ghost use Rattle.run_words.specs.Text.{status_line};
ghost use Rattle.command_ends.specs.Ends.{Ends};
ghost use Rattle.command_ends.specs.Wrongs.{IsWrongText, dump_bad_text};
ghost use Rattle.command_calls.specs.CommandCall.{IsCommandCall, WithWrong};
ghost use Rattle.command_calls.specs.Moves.{HasNoFailure, moves};
ghost use Rattle.dump_bytes.specs.Bounds.{IsDump};
ghost use Rattle.dump_bytes.specs.Dumped.{dumped};
ghost use Rattle.show_command.specs.ShowTells.{EndsShown, HasDump, ShowTells, fault_status, fault_told, wrong_in_dump};

use arrayvec::ArrayVec;
use command_calls::CallEnds;
use command_ends::{Status, Wrong, end_with, write_line};
use disk_trait::Depot;
use dump_bytes::{Dump, DumpFault, read_dump};
use dump_lines::{recount, show};
use outside_io::{Sink, Source, WriteFault};
use std::alloc::Global;
use vm_text::{push_decimal, push_word};

fn print_bad<K: Sink>(bytes: u64, sink: &mut K) -> Result<(), WriteFault>
    ensures { Writes (K.seen sink.old) (K.seen sink.new) result (dump_bad_text bytes) }
{
    let mut out = ArrayVec::new();
    push_word(&mut out, b"DUMP ");
    push_decimal(&mut out, bytes);
    push_word(&mut out, b" BAD");
    write_line(out, sink)
}

// Ends with status 2 after how many bytes begin a dump.
fn end_bad<K: Sink>(bytes: u64, sink: &mut K) -> Status
    ensures { Ends (K.seen sink.old) (K.seen sink.new) 2 (dump_bad_text bytes ++ status_line 2) result.0 }
{
    match print_bad(bytes, sink) {
        Ok(()) => end_with(2, sink),
        Err(_) => Status(4),
    }
}

// Ends where the input gives no dump.
fn end_fault<K: Sink>(fault: DumpFault, sink: &mut K) -> Status
    ensures { Ends (K.seen sink.old) (K.seen sink.new) (fault_status fault) (fault_told fault) result.0 }
{
    match fault {
        DumpFault::Bad(bytes) => end_bad(bytes, sink),
        DumpFault::ReadFault => end_with(3, sink),
        DumpFault::NoMemory => end_with(7, sink),
    }
}

// What is wrong with an input that gives no dump.
fn wrong_in_dump(fault: DumpFault) -> Option<Wrong>
    ensures { result ≡ wrong_in_dump fault }
{
    match fault {
        DumpFault::Bad(bytes) => Some(Wrong::DumpByte(bytes)),
        DumpFault::ReadFault => None,
        DumpFault::NoMemory => None,
    }
}

// Writes the text of a dump and what is wrong in it.
fn end_dump<K: Sink>(alloc: Global, dump: &Dump, sink: &mut K) -> Status
    requires { IsDump (dumped dump.now) }
    ensures { EndsShown (dumped dump.now) (K.seen sink.old) (K.seen sink.new) result.0 }
{
    match recount(alloc, dump) {
        Ok(counts) => show(dump, &counts, sink),
        Err(_) => end_with(7, sink),
    }
}

/// Reads a dump, which is all that the source gives, and writes its text: a line for each page frame
/// that is bad or holds a page, the page lists, the processes with the filled slots of their working
/// set lists, the page file's three numbers, each number kept of a frame that differs from its recount,
/// how many these are, and the status line. For an input that is no dump it writes `DUMP n BAD`, where
/// the first n bytes begin some dump and no dump begins with those and the next byte, or the input ends
/// after them, and they are no whole one. Each line is one write of a whole text. The status is 0 for a
/// dump, 2 if the input is none, 3 only if a read failed, 4 only if a write failed or took nothing, 7 if
/// memory ran out. It answers besides what is wrong with the input, if anything is.
pub fn show_dump<S: Source, K: Sink, D: Depot>(
    alloc: Global,
    ends: &mut CallEnds<S, K, D>,
) -> (Status, Option<Wrong>)
    // A status with the text that goes with it, and what is wrong with the input by that text.
    ensures call { IsCommandCall (WithWrong (λ source depot. ShowTells source.before source.after) result.1)
        (moves S.seen K.seen D.seen ends.old ends.new) result.0.0 }
    // If the input is a dump and nothing fails, the status is 0, or memory ran out.
    ensures complete { HasDump (S.seen ends.old.source) → HasNoFailure (moves S.seen K.seen D.seen ends.old ends.new)
        → (result.0.0 ≡ 0) ⊎ (result.0.0 ≡ 7) }
    // No line of the input is quoted.
    ensures kept { (input : Option (List ℕ)) (kept : List ℕ) → IsWrongText result.1 input kept }
    ensures no_block { ends.new.depot ≡ ends.old.depot }
{
    match read_dump(alloc, &mut ends.source) {
        Ok(dump) => (end_dump(alloc, &dump, &mut ends.output), None),
        Err(fault) => (end_fault(fault, &mut ends.output), wrong_in_dump(fault)),
    }
}
