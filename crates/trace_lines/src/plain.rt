ghost use Rattle.std.specs.Prelude.{◌≡◌, IfSome, Ok};
ghost use Rattle.trace_lines.specs.Grammar.{judged};
ghost use Rattle.trace_lines.specs.Plain.{IsPlainFront, IsPlainOp, IsPlainValue, takes_request, width_of};
ghost use Rattle.trace_lines.specs.Says.{Request as asks};

use crate::judging::content;
use crate::lookups::{aligned, process};
use crate::part::Part;
use crate::places::Place;
use crate::ranges::{bytes_of, fits};
use trace_words::{Access, OpName, hexadecimal, op_name};
use vm_types::{Addr, Op, Proc, Ref, Request, Task, Width};

/// The process's byte, the operation, the address's word and the text behind it, if one blank stands
/// between two words, the operation's name has two bytes and the address eight.
pub(crate) fn plain_front(text: &[u8]) -> Option<(u8, OpName, &[u8], &[u8])>
    ensures { IfSome result (λ front. IsPlainFront text.now front.0 front.1 front.2.now front.3.now) }
{
    match text {
        [x, b' ', first, second, b' ', rest @ ..] => {
            let op = op_name(&[*first, *second])?;
            if rest.len() < 8 {
                return None;
            }
            let (word, behind) = rest.split_at(8);
            Some((*x, op, word, behind))
        }
        _ => None,
    }
}

// The value that one blank stands before, and nothing behind.
fn plain_value(width: Width, behind: &[u8]) -> Option<u32>
    ensures { IfSome result (λ value. IsPlainValue width behind.now value) }
{
    match behind {
        [b' ', word @ ..] => match hexadecimal(word) {
            Ok(value) if fits(width, value) => Some(value),
            _ => None,
        },
        _ => None,
    }
}

// What the access does, by the text behind the address.
fn plain_op(access: Access, behind: &[u8]) -> Option<Op>
    ensures { IfSome result (λ op. IsPlainOp access behind.now op) }
{
    match access {
        Access::Read(width) => {
            if behind.is_empty() {
                Some(Op::Read(width))
            } else {
                None
            }
        }
        Access::Write(width) => {
            let value = plain_value(width, behind)?;
            Some(Op::Write(width, value))
        }
        Access::Add => {
            let value = plain_value(Width::Four, behind)?;
            Some(Op::Add(value))
        }
    }
}

/// The width of an access.
pub(crate) fn width_of(access: Access) -> Width
    ensures { result ≡ width_of access }
{
    match access {
        Access::Read(width) | Access::Write(width) => width,
        Access::Add => Width::Four,
    }
}

/// Whether a line of this number may be a request: it stands among them, and the lines and requests don't
/// get too many.
pub(crate) fn takes_request(number: u32, part: &Part) -> bool
    ensures { result ≡ takes_request number part.now }
{
    let version = part.config.version;
    number <= version.most_lines()
        && part.place.rank() == Place::Requests.rank()
        && part.config.body.len() < version.most_requests() as usize
}

/// The request of a line that is written in the plain form, as `A W4 00000200 0000002A`: a reference
/// in user mode with one blank between two words and eight digits of the address. `None` says nothing:
/// the line may be faulty or not, and [`judge`](crate::judge) says what it is. Doesn't allocate.
pub fn plain_line(number: u32, part: &Part, line: &[u8]) -> Option<Task>
    ensures { IfSome result (λ task. judged number part.now line.now ≡ Ok (asks task)) }
{
    if line.len() > 255 {
        return None;
    }
    if !takes_request(number, part) {
        return None;
    }
    let (x, op, word, behind) = plain_front(content(line))?;
    let Ok(p) = process(part.config.procs.items(), &[x]) else {
        return None;
    };
    let Ok(at) = aligned(bytes_of(width_of(op.access)), word) else {
        return None;
    };
    let what = plain_op(op.access, behind)?;
    Some(Task {
        proc: Proc(p),
        request: Request::Reference(Ref {
            mode: op.mode,
            addr: Addr(at),
            op: what,
        }),
    })
}
