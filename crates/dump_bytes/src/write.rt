ghost use Rattle.std.specs.Prelude.{map, All};
ghost use Rattle.std.specs.List.{flat_map};
ghost use Rattle.outside_io.specs.Writes.{Writes};
ghost use Rattle.dump_bytes.specs.Bounds.{IsDump};
ghost use Rattle.dump_bytes.specs.Dumped.{dumped, process_of};
ghost use Rattle.dump_bytes.specs.Short.{IsShort};
ghost use Rattle.dump_bytes.specs.Text.{number, frame_text, slot_text, word_text, process_text, dump_text};

use crate::dump::{Dump, FrameRec, ProcRec, SlotRec};
use crate::text::{bytes_of, entry_row, frame_row, head_row, process_row, slot_row};
use arrayvec::ArrayVec;
use outside_io::{Sink, WriteFault, write_whole};

fn write_row<K: Sink>(row: ArrayVec<u8, 36>, sink: &mut K) -> Result<(), WriteFault>
    ensures { Writes (K.seen sink.old) (K.seen sink.new) result row.items }
{
    write_whole(sink, row.as_slice())
}

fn write_frames<K: Sink>(frames: &[FrameRec], sink: &mut K) -> Result<(), WriteFault>
    ensures { Writes (K.seen sink.old) (K.seen sink.new) result (flat_map frame_text frames.now) }
{
    for frame in frames {
        write_row(frame_row(*frame), sink)?;
    }
    Ok(())
}

fn write_number<K: Sink>(n: u32, sink: &mut K) -> Result<(), WriteFault>
    ensures { Writes (K.seen sink.old) (K.seen sink.new) result (number n) }
{
    write_whole(sink, &bytes_of(n))
}

fn write_numbers<K: Sink>(numbers: &[u32], sink: &mut K) -> Result<(), WriteFault>
    ensures { Writes (K.seen sink.old) (K.seen sink.new) result (flat_map number numbers.now) }
{
    for n in numbers {
        write_number(*n, sink)?;
    }
    Ok(())
}

fn write_slots<K: Sink>(slots: &[SlotRec], sink: &mut K) -> Result<(), WriteFault>
    ensures { Writes (K.seen sink.old) (K.seen sink.new) result (flat_map slot_text slots.now) }
{
    for slot in slots {
        write_row(slot_row(*slot), sink)?;
    }
    Ok(())
}

fn write_entries<K: Sink>(entries: &[(u32, u32)], sink: &mut K) -> Result<(), WriteFault>
    ensures { Writes (K.seen sink.old) (K.seen sink.new) result (flat_map word_text entries.now) }
{
    for entry in entries {
        write_row(entry_row(*entry), sink)?;
    }
    Ok(())
}

fn write_process<K: Sink>(proc: &ProcRec, sink: &mut K) -> Result<(), WriteFault>
    requires { IsShort proc.now }
    ensures { Writes (K.seen sink.old) (K.seen sink.new) result (process_text (process_of proc.now)) }
{
    write_row(process_row(proc), sink)?;
    write_slots(&proc.slots, sink)?;
    write_number(proc.words.len() as u32, sink)?;
    write_entries(&proc.words, sink)
}

fn write_processes<K: Sink>(procs: &[ProcRec], sink: &mut K) -> Result<(), WriteFault>
    requires { All IsShort procs.now }
    ensures { Writes (K.seen sink.old) (K.seen sink.new) result (flat_map process_text (map process_of procs.now)) }
{
    for proc in procs {
        write_process(proc, sink)?;
    }
    Ok(())
}

/// Writes the dump, which keeps the bounds, codes and orders of its layout, in as many calls as the
/// sink needs. Doesn't allocate.
///
/// # Errors
/// `Failed` only if the sink's count of failures rose. `NoneTaken` exactly if its count of stalls
/// rose. After either the sink has taken less than the dump's bytes, a prefix of them.
pub fn write_dump<K: Sink>(dump: &Dump, sink: &mut K) -> Result<(), WriteFault>
    requires { IsDump (dumped dump.now) }
    ensures { Writes (K.seen sink.old) (K.seen sink.new) result (dump_text (dumped dump.now)) }
{
    write_row(head_row(dump), sink)?;
    write_frames(&dump.frames, sink)?;
    write_numbers(&dump.free, sink)?;
    write_numbers(&dump.modified, sink)?;
    write_processes(&dump.procs, sink)?;
    write_number(dump.flights.len() as u32, sink)?;
    write_numbers(&dump.flights, sink)
}
