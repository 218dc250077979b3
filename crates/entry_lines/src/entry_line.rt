ghost use Rattle.std.specs.Prelude.{◌≡◌, ◌+◌, ◌≤◌, ◌++◌, []};
ghost use Rattle.arrayvec.specs.ArrayVec.{array_vec_len};
ghost use Rattle.vm_text.specs.Named.{AreNames};
ghost use Rattle.vm_journal.specs.HasLine.{HasLine};
ghost use Rattle.vm_journal.specs.Line.{line_text, kind_of, kind_word};

use crate::parts::push_parts;
use arrayvec::ArrayVec;
use vm_journal::{Entry, What};
use vm_text::{push_decimal, push_seat, push_word};
use vm_types::Section;

/// Puts the line of entry `number` into `out`, which is empty before, without the byte 10 that
/// ends a line; it has at most 159 bytes. `procs` is the number of processes, which names the
/// seats, and `names` are the sections. Doesn't allocate.
pub fn line(number: u64, e: &Entry, procs: u32, names: &[Section], out: &mut ArrayVec<u8, 160>)
    requires empty { out.old.items ≡ [] }
    requires names { AreNames procs names.now }
    requires has_line { HasLine procs names.now e.now }
    ensures text { out.new.items ≡ line_text number e.now procs names.now }
    ensures len { array_vec_len out.new ≤ 159 }
{
    add_line(number, e, procs, names, out);
}

/// Adds the line of entry `number` without the byte 10 that ends a line; it has at most 159 bytes.
/// `procs` is the number of processes, which names the seats, and `names` are the sections. Doesn't
/// allocate.
pub fn add_line<const CAP: usize>(
    number: u64,
    e: &Entry,
    procs: u32,
    names: &[Section],
    out: &mut ArrayVec<u8, CAP>,
)
    requires names { AreNames procs names.now }
    requires has_line { HasLine procs names.now e.now }
    requires room { array_vec_len out.old + 159 ≤ CAP }
    ensures text { out.new.items ≡ out.old.items ++ line_text number e.now procs names.now }
    ensures len { array_vec_len out.new ≤ array_vec_len out.old + 159 }
{
    push_decimal(out, number);
    out.push(b' ');
    push_seat(out, e.seat, procs);
    out.push(b' ');
    push_kind(out, &e.what);
    push_parts(out, &e.what, procs, names);
}

fn push_kind<const CAP: usize>(out: &mut ArrayVec<u8, CAP>, what: &What)
    requires { array_vec_len out.old + 7 ≤ CAP }
    ensures items { out.new.items ≡ out.old.items ++ kind_word (kind_of what.now) }
    ensures len { array_vec_len out.new ≤ array_vec_len out.old + 7 }
{
    match what {
        What::Done { .. } => push_word(out, b"DONE"),
        What::Denied { .. } => push_word(out, b"DENIED"),
        What::Served { .. } => push_word(out, b"SERVED"),
        What::Reuse { .. } => push_word(out, b"REUSE"),
        What::Zero { .. } => push_word(out, b"ZERO"),
        What::Back { .. } => push_word(out, b"BACK"),
        What::Collide { .. } => push_word(out, b"COLLIDE"),
        What::In { .. } => push_word(out, b"IN"),
        What::InOk { .. } => push_word(out, b"INOK"),
        What::InFail { .. } => push_word(out, b"INFAIL"),
        What::Out { .. } => push_word(out, b"OUT"),
        What::OutOk { .. } => push_word(out, b"OUTOK"),
        What::OutFail { .. } => push_word(out, b"OUTFAIL"),
        What::Evict { .. } => push_word(out, b"EVICT"),
        What::Limit { .. } => push_word(out, b"LIMIT"),
        What::Turn { .. } => push_word(out, b"TURN"),
    }
}
