//! The lines of processes and of the slots of their working set lists.

ghost use Rattle.std.specs.Prelude.{◌≡◌, ◌+◌, ◌^◌, ◌<◌, ◌≤◌, ◌++◌, [], All, length, map};
ghost use Rattle.vm_types.specs.declared.limits.TheConstants.{MOST_EXTENT};
ghost use Rattle.outside_io.specs.Writes.{Writes};
ghost use Rattle.run_words.specs.Text.{ended};
ghost use Rattle.arrayvec.specs.ArrayVec.{array_vec_len};
ghost use Rattle.dump_bytes.specs.Dumped.{process_of};
ghost use Rattle.dump_lines.specs.Printable.{IsPrintableProcess, IsPrintableSlot};
ghost use Rattle.dump_lines.specs.ProcessLines.{filled_in, marked, one_process, process_lines, process_text, slot_line, slot_lines, slot_text};

use crate::codes::status_of_code;
use arrayvec::ArrayVec;
use command_ends::{push_counted, write_line};
use dump_bytes::{ProcRec, SlotRec};
use outside_io::{Sink, WriteFault};
use vm_text::{push_place, push_process, push_status, push_word};
use vm_types::{Addr, PAGE_BYTES, Proc};

/// How many of the slots are filled.
fn count_filled(slots: &[SlotRec]) -> u32
    requires { length slots.now ≤ MOST_EXTENT }
    ensures { result ≡ filled_in slots.now }
{
    slots.iter().filter(|slot| slot.filled).count() as u32
}

fn print_head<K: Sink>(x: u32, proc: &ProcRec, sink: &mut K) -> Result<(), WriteFault>
    requires letter { x < 16 }
    requires few { length proc.now.slots.items ≤ MOST_EXTENT }
    ensures { Writes (K.seen sink.old) (K.seen sink.new) result (ended (process_text x (process_of proc.now))) }
{
    let mut out = ArrayVec::new();
    push_word(&mut out, b"PROCESS ");
    push_process(&mut out, Proc(x));
    push_word(&mut out, b" ");
    push_status(&mut out, status_of_code(proc.status));
    push_counted(&mut out, b" COUNT ", count_filled(&proc.slots));
    push_counted(&mut out, b" LIMIT ", proc.limit);
    push_counted(&mut out, b" HAND ", proc.hand);
    write_line(out, sink)
}

/// Adds the word if the mark is set.
fn push_marked(out: &mut ArrayVec<u8, 160>, mark: bool, word: &[u8])
    requires { array_vec_len out.old + length word.now ≤ 160 }
    ensures items { out.new.items ≡ out.old.items ++ marked mark word.now }
    ensures len { array_vec_len out.new ≤ array_vec_len out.old + length word.now }
{
    if mark {
        push_word(out, word);
    }
}

fn push_slot(out: &mut ArrayVec<u8, 160>, x: u32, n: u32, slot: SlotRec)
    requires letter { x < 16 }
    requires small { slot.vpn < 2 ^ 22 }
    requires empty { out.old.items ≡ [] }
    ensures items { out.new.items ≡ slot_text x n slot }
    ensures len { array_vec_len out.new ≤ 159 }
{
    push_counted(out, b"SLOT ", n);
    push_word(out, b" ");
    push_place(out, Proc(x), Addr(PAGE_BYTES * slot.vpn));
    push_marked(out, slot.locked, b" LOCKED");
    push_marked(out, slot.pinned, b" PINNED");
}

fn print_slot<K: Sink>(x: u32, n: u32, slot: SlotRec, sink: &mut K) -> Result<(), WriteFault>
    requires letter { x < 16 }
    requires small { slot.vpn < 2 ^ 22 }
    ensures { Writes (K.seen sink.old) (K.seen sink.new) result (slot_line x n slot) }
{
    if !slot.filled {
        return Ok(());
    }
    let mut out = ArrayVec::new();
    push_slot(&mut out, x, n, slot);
    write_line(out, sink)
}

fn print_slots<K: Sink>(x: u32, slots: &[SlotRec], sink: &mut K) -> Result<(), WriteFault>
    requires letter { x < 16 }
    requires few { length slots.now ≤ MOST_EXTENT }
    requires small { All IsPrintableSlot slots.now }
    ensures { Writes (K.seen sink.old) (K.seen sink.new) result (slot_lines x 0 slots.now) }
{
    for (n, slot) in slots.iter().enumerate() {
        print_slot(x, n as u32, *slot, sink)?;
    }
    Ok(())
}

fn print_process<K: Sink>(x: u32, proc: &ProcRec, sink: &mut K) -> Result<(), WriteFault>
    requires letter { x < 16 }
    requires printable { IsPrintableProcess proc.now }
    ensures { Writes (K.seen sink.old) (K.seen sink.new) result (one_process x (process_of proc.now)) }
{
    print_head(x, proc, sink)?;
    print_slots(x, &proc.slots, sink)
}

/// Writes the lines of the processes, of which there are at most 16, each with those of its slots.
pub(crate) fn print_processes<K: Sink>(procs: &[ProcRec], sink: &mut K) -> Result<(), WriteFault>
    requires few { length procs.now ≤ 16 }
    requires printable { All IsPrintableProcess procs.now }
    ensures { Writes (K.seen sink.old) (K.seen sink.new) result (process_lines 0 (map process_of procs.now)) }
{
    for (x, proc) in procs.iter().enumerate() {
        print_process(x as u32, proc, sink)?;
    }
    Ok(())
}
