ghost use Rattle.std.specs.Prelude.{◌≡◌, ◌+◌, ◌≤◌, ◌++◌, length, codes};
ghost use Rattle.arrayvec.specs.ArrayVec.{array_vec_len};
ghost use Rattle.dump_bytes.specs.Bounds.{IsDump};
ghost use Rattle.dump_bytes.specs.Dumped.{dumped, process_of};
ghost use Rattle.dump_bytes.specs.Short.{IsShort};
ghost use Rattle.dump_bytes.specs.Text as text;

use crate::dump::{Dump, FrameRec, ProcRec, SlotRec};
use arrayvec::ArrayVec;
use byteorder::{BigEndian, ByteOrder};
use vm_types::Page;

/// Adds these bytes.
fn push_bytes(row: &mut ArrayVec<u8, 36>, bytes: &[u8])
    requires { array_vec_len row.old + length bytes.now ≤ 36 }
    ensures items { row.new.items ≡ row.old.items ++ bytes.now }
    ensures len { array_vec_len row.new ≡ array_vec_len row.old + length bytes.now }
{
    row.try_extend_from_slice(bytes).unwrap();
}

/// The four bytes of a number, the highest first.
pub(crate) fn bytes_of(n: u32) -> [u8; 4]
    ensures { result ≡ text.number n }
{
    let mut bytes = [0; 4];
    BigEndian::write_u32(&mut bytes, n);
    bytes
}

/// Adds a number of four bytes, the highest first.
fn push_number(row: &mut ArrayVec<u8, 36>, n: u32)
    requires { array_vec_len row.old + 4 ≤ 36 }
    ensures items { row.new.items ≡ row.old.items ++ text.number n }
    ensures len { array_vec_len row.new ≡ array_vec_len row.old + 4 }
{
    push_bytes(row, &bytes_of(n));
}

/// The head of a dump: its letters and seven numbers.
pub(crate) fn head_row(dump: &Dump) -> ArrayVec<u8, 36>
    requires { IsDump (dumped dump.now) }
    ensures { result.items ≡ codes "VMSDUMP1" ++ text.head_text (dumped dump.now) }
{
    let mut row = ArrayVec::new();
    push_bytes(&mut row, b"VMSDUMP1");
    push_number(&mut row, dump.frames.len() as u32);
    push_number(&mut row, dump.free.len() as u32);
    push_number(&mut row, dump.modified.len() as u32);
    push_number(&mut row, dump.procs.len() as u32);
    push_number(&mut row, dump.size);
    push_number(&mut row, dump.charged);
    push_number(&mut row, dump.assigned);
    row
}

/// The kind of a page, the number of its process or section, and its own number.
fn page_parts(page: Option<Page>) -> (u8, u32, u32)
    ensures { result ≡ (text.kind_code page, text.owner_number page, text.page_number page) }
{
    match page {
        None => (0, 0, 0),
        Some(Page::Private(owner, vpn)) => (1, owner.0, vpn),
        Some(Page::Shared(section, page)) => (2, section.0, page),
    }
}

/// A frame.
pub(crate) fn frame_row(frame: FrameRec) -> ArrayVec<u8, 36>
    ensures { result.items ≡ text.frame_text frame }
{
    let (kind, owner, number) = page_parts(frame.page);
    let mut row = ArrayVec::new();
    push_bytes(&mut row, &[frame.state, u8::from(frame.modify), kind, 0]);
    push_number(&mut row, owner);
    push_number(&mut row, number);
    push_number(&mut row, frame.refs);
    push_number(&mut row, frame.shares);
    row
}

/// A slot.
pub(crate) fn slot_row(slot: SlotRec) -> ArrayVec<u8, 36>
    ensures { result.items ≡ text.slot_text slot }
{
    let code = u8::from(slot.filled) + 2 * u8::from(slot.locked) + 4 * u8::from(slot.pinned);
    let mut row = ArrayVec::new();
    push_bytes(&mut row, &[code, 0, 0, 0]);
    push_number(&mut row, slot.vpn);
    row
}

/// A valid entry.
pub(crate) fn entry_row(entry: (u32, u32)) -> ArrayVec<u8, 36>
    ensures { result.items ≡ text.word_text entry }
{
    let mut row = ArrayVec::new();
    push_number(&mut row, entry.0);
    push_number(&mut row, entry.1);
    row
}

/// The head of a process: its status, the number of its slots, its hand and its limit.
pub(crate) fn process_row(proc: &ProcRec) -> ArrayVec<u8, 36>
    requires { IsShort proc.now }
    ensures { result.items ≡ text.process_head (process_of proc.now) }
{
    let mut row = ArrayVec::new();
    push_bytes(&mut row, &[proc.status, 0, 0, 0]);
    push_number(&mut row, proc.slots.len() as u32);
    push_number(&mut row, proc.hand);
    push_number(&mut row, proc.limit);
    row
}
