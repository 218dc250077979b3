ghost use Rattle.std.specs.Prelude.{◌≡◌, ◌∷◌, IfSome, Ok};
ghost use Rattle.trace_words.specs.Number.{hexadecimal};
ghost use Rattle.trace_lines.specs.Plain.{IsEndedNumber, IsEndedOp, IsEndedValue, IsFirstRequest, IsValued, asked};

use crate::lookups::{aligned, process};
use crate::part::Part;
use crate::plain::{plain_front, takes_request, width_of};
use crate::ranges::{bytes_of, fits};
use trace_words::{Access, hexadecimal, parted};
use vm_types::{Addr, Mode, Op, Proc, Ref, Request, Task, Width};

// The number of this word, with the text behind it.
fn numbered<'a>(word: &[u8], rest: &'a [u8]) -> Option<(u32, &'a [u8])>
    ensures { IfSome result (λ r. (hexadecimal word.now ≡ Ok r.0) × (r.1.now ≡ rest.now)) }
{
    match hexadecimal(word) {
        Ok(value) => Some((value, rest)),
        Err(_) => None,
    }
}

// The number that ends with the line, and the text behind the byte 10. Eight digits are taken at once.
fn ended_number(text: &[u8]) -> Option<(u32, &[u8])>
    ensures { IfSome result (λ r. IsEndedNumber text.now r.0 r.1.now) }
{
    if text.len() > 8 && text[8] == b'\n' {
        let (word, behind) = text.split_at(8);
        return numbered(word, &behind[1..]);
    }
    let (word, rest) = parted(text, b'\n')?;
    numbered(word, rest)
}

// What stands behind one blank.
fn behind_blank(text: &[u8]) -> Option<&[u8]>
    ensures { IfSome result (λ tail. text.now ≡ 32 ∷ tail.now) }
{
    match text {
        [b' ', tail @ ..] => Some(tail),
        _ => None,
    }
}

// The value that one blank stands before, and the text behind the byte 10 that comes next.
fn plain_value(width: Width, text: &[u8]) -> Option<(u32, &[u8])>
    ensures { IfSome result (λ r. IsEndedValue width text.now r.0 r.1.now) }
{
    let (value, rest) = ended_number(behind_blank(text)?)?;
    if fits(width, value) {
        Some((value, rest))
    } else {
        None
    }
}

// A write or an add of this value.
fn valued(access: Access, value: u32) -> Option<Op>
    ensures { IfSome result (IsValued access value) }
{
    match access {
        Access::Read(_) => None,
        Access::Write(width) => Some(Op::Write(width, value)),
        Access::Add => Some(Op::Add(value)),
    }
}

// A write or an add, with the text behind the byte 10 that ends the line.
#[inline(always)]
fn written(access: Access, text: &[u8]) -> Option<(Op, &[u8])>
    ensures { IfSome result (λ r. IsEndedOp access text.now r.0 r.1.now) }
{
    let (value, rest) = plain_value(width_of(access), text)?;
    let op = valued(access, value)?;
    Some((op, rest))
}

// A read, if nothing stands behind its address, and the text behind the byte 10 that ends the line.
fn read(access: Access, text: &[u8]) -> Option<(Op, &[u8])>
    ensures { IfSome result (λ r. IsEndedOp access text.now r.0 r.1.now) }
{
    match access {
        Access::Read(width) => match text {
            [b'\n', rest @ ..] => Some((Op::Read(width), rest)),
            _ => None,
        },
        _ => None,
    }
}

fn asked(p: u32, mode: Mode, at: u32, op: Op) -> Task
    ensures { result ≡ asked p mode at op }
{
    let addr = Addr(at);
    Task {
        proc: Proc(p),
        request: Request::Reference(Ref { mode, addr, op }),
    }
}

/// The request of the text's first line, which has this number, and the text behind the byte 10 that
/// ends it, if the line is written in the plain form, as `A W4 00000200 0000002A`: a reference in user
/// mode with one blank between two words and eight digits of the address. `None` says nothing: the line
/// may be faulty or not, and [`judge`](crate::judge) says what it is. Doesn't allocate.
pub fn plain_request<'a>(number: u32, part: &Part, text: &'a [u8]) -> Option<(Task, &'a [u8])>
    ensures { IfSome result (λ r. IsFirstRequest number part.now text.now r.0 r.1.now) }
{
    if text.len() < 14 {
        return None;
    }
    if !takes_request(number, part) {
        return None;
    }
    let (x, op, word, behind) = plain_front(text)?;
    let Ok(p) = process(part.config.procs.items(), &[x]) else {
        return None;
    };
    let Ok(at) = aligned(bytes_of(width_of(op.access)), word) else {
        return None;
    };
    if let Some((what, rest)) = read(op.access, behind) {
        return Some((asked(p, op.mode, at, what), rest));
    }
    let (what, rest) = written(op.access, behind)?;
    Some((asked(p, op.mode, at, what), rest))
}
