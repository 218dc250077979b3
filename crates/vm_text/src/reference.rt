ghost use Rattle.std.specs.Prelude.{◌≡◌, ◌+◌, ◌<◌, ◌≤◌, ◌++◌};
ghost use Rattle.vm_types.specs.declared.reference.Mode.TheVariants.{U};
ghost use Rattle.vm_types.specs.WellFormed.{op_bytes};
ghost use Rattle.arrayvec.specs.ArrayVec.{array_vec_len};
ghost use Rattle.vm_text.specs.Readings.{Reads};
ghost use Rattle.vm_text.specs.References.{bare, mode_text, op_text, value_text, why_word};

use crate::number::push_hex;
use crate::text::{after, push_word};
use arrayvec::ArrayVec;
use vm_types::{Mode, Op, Why, Width};

/// How many bytes an op takes: 1, 2 or 4.
pub fn bytes_of(op: Op) -> u8
    ensures value { result ≡ op_bytes op }
    ensures some { 1 ≤ result }
    ensures few { result ≤ 4 }
{
    match op {
        Op::Read(width) | Op::Write(width, _) => match width {
            Width::One => 1,
            Width::Two => 2,
            Width::Four => 4,
        },
        Op::Add(_) => 4,
    }
}

// The mode's letter, none for user mode.
fn push_mode<const CAP: usize>(out: &mut ArrayVec<u8, CAP>, mode: Mode)
    requires { array_vec_len out.old + 1 ≤ CAP }
    ensures items { out.new.items ≡ out.old.items ++ mode_text mode }
    ensures len { array_vec_len out.new ≤ array_vec_len out.old + 1 }
{
    match mode {
        Mode::K => out.push(b'K'),
        Mode::E => out.push(b'E'),
        Mode::S => out.push(b'S'),
        Mode::U => (),
    }
}

/// Adds the mode's letter, which user mode doesn't have, the op's letter and the bytes that it takes,
/// as `KR1`. Doesn't allocate.
pub fn push_op<const CAP: usize>(out: &mut ArrayVec<u8, CAP>, mode: Mode, op: Op)
    requires { array_vec_len out.old + 3 ≤ CAP }
    ensures items { out.new.items ≡ out.old.items ++ op_text mode op }
    ensures len { array_vec_len out.new ≤ array_vec_len out.old + 3 }
{
    push_mode(out, mode);
    match op {
        Op::Read(_) => out.push(b'R'),
        Op::Write(_, _) => out.push(b'W'),
        Op::Add(_) => out.push(b'A'),
    }
    out.push(b'0' + bytes_of(op));
}

/// Adds the value in two hexadecimal digits for each byte that the op takes. Doesn't allocate.
pub fn push_value<const CAP: usize>(out: &mut ArrayVec<u8, CAP>, op: Op, value: u32)
    requires { array_vec_len out.old + 8 ≤ CAP }
    ensures items { out.new.items ≡ out.old.items ++ value_text op value }
    ensures len { array_vec_len out.new ≤ array_vec_len out.old + 8 }
{
    match bytes_of(op) {
        1 => push_hex(out, value, 2),
        2 => push_hex(out, value, 4),
        _ => push_hex(out, value, 8),
    }
}

/// Adds the word for why a reference is refused. Doesn't allocate.
pub fn push_why<const CAP: usize>(out: &mut ArrayVec<u8, CAP>, why: Why)
    requires { array_vec_len out.old + 12 ≤ CAP }
    ensures items { out.new.items ≡ out.old.items ++ why_word why }
    ensures len { array_vec_len out.new ≤ array_vec_len out.old + 12 }
{
    match why {
        Why::Unmapped => push_word(out, b"UNMAPPED"),
        Why::Protected => push_word(out, b"PROTECTED"),
        Why::PageFileFull => push_word(out, b"PAGEFILEFULL"),
        Why::DiskFault => push_word(out, b"DISKFAULT"),
    }
}

/// The mode and the op of this word, as `KR1`; a value that is written or added is 0 in it. Doesn't
/// allocate.
pub fn read_op(word: &[u8]) -> Option<(Mode, Op)>
    ensures { Reads (λ x. bare x.1 ≡ x.1) (λ x. op_text x.0 x.1) word.now result }
{
    if let Some(rest) = after(word, b"K") {
        return Some((Mode::K, read_op_name(rest)?));
    }
    if let Some(rest) = after(word, b"E") {
        return Some((Mode::E, read_op_name(rest)?));
    }
    if let Some(rest) = after(word, b"S") {
        return Some((Mode::S, read_op_name(rest)?));
    }
    Some((Mode::U, read_op_name(word)?))
}

// The op of this word without a mode.
fn read_op_name(word: &[u8]) -> Option<Op>
    ensures { Reads (λ op. bare op ≡ op) (λ op. op_text U op) word.now result }
{
    match word {
        b"R1" => Some(Op::Read(Width::One)),
        b"R2" => Some(Op::Read(Width::Two)),
        b"R4" => Some(Op::Read(Width::Four)),
        b"W1" => Some(Op::Write(Width::One, 0)),
        b"W2" => Some(Op::Write(Width::Two, 0)),
        b"W4" => Some(Op::Write(Width::Four, 0)),
        b"A4" => Some(Op::Add(0)),
        _ => None,
    }
}

/// Why a reference is refused, by this word. Doesn't allocate.
pub fn read_why(word: &[u8]) -> Option<Why>
    ensures { Reads (λ _. Unit {0}) why_word word.now result }
{
    match word {
        b"UNMAPPED" => Some(Why::Unmapped),
        b"PROTECTED" => Some(Why::Protected),
        b"PAGEFILEFULL" => Some(Why::PageFileFull),
        b"DISKFAULT" => Some(Why::DiskFault),
        _ => None,
    }
}
