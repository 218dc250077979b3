// The requests in entries, and what they are answered, read.
ghost use Rattle.std.specs.Prelude.{◌≡◌, ◌↔◌, ◌%◌, ◌+◌, ◌≤◌, IsTrue};
ghost use Rattle.vm_types.specs.WellFormed.{FitsOp, IsRange, IsWellFormedReference, IsWellFormedService, op_bytes};
ghost use Rattle.vm_text.specs.Readings.{Reads, Takes};
ghost use Rattle.vm_text.specs.References.{IsReplyTo, bare, operand_words, reference_words, reply_words};
ghost use Rattle.vm_text.specs.Services.{HasAnswerWords, answer_words, range_words, service_words};

use crate::take::{
    take_address, take_count, take_op, take_page_start, take_protection, take_value,
};
use crate::words::Words;
use vm_text::{bytes_of, is};
use vm_types::{Addr, Answer, Op, P0_PAGES, PAGE_BYTES, Ref, Reply, Service};

// Whether the address is a multiple of the bytes that the op takes.
fn is_aligned(address: Addr, op: Op) -> bool
    ensures { IsTrue result ↔ (address.0 % op_bytes op ≡ 0) }
{
    address.0 % u32::from(bytes_of(op)) == 0
}

// The op with the value that is written or added.
fn take_operand(words: &mut Words<'_>, shape: Op) -> Option<Op>
    requires { bare shape ≡ shape }
    ensures { Takes (λ op. (bare op ≡ shape) × FitsOp op) operand_words words.old words.new result }
{
    match shape {
        Op::Read(width) => Some(Op::Read(width)),
        Op::Write(width, _) => {
            let value = take_value(words, shape)?;
            Some(Op::Write(width, value))
        }
        Op::Add(_) => {
            let value = take_value(words, shape)?;
            Some(Op::Add(value))
        }
    }
}

pub(crate) fn take_reference(words: &mut Words<'_>) -> Option<Ref>
    ensures { Takes IsWellFormedReference reference_words words.old words.new result }
{
    let (mode, shape) = take_op(words)?;
    let addr = take_address(words)?;
    if !is_aligned(addr, shape) {
        return None;
    }
    let op = take_operand(words, shape)?;
    Some(Ref { mode, addr, op })
}

// The reply to a reference that was answered.
pub(crate) fn take_reply(words: &mut Words<'_>, op: Op) -> Option<Reply>
    ensures { Takes (IsReplyTo op) (reply_words op) words.old words.new result }
{
    match op {
        Op::Read(_) => {
            let value = take_value(words, op)?;
            Some(Reply::Value(value))
        }
        Op::Write(_, _) => Some(Reply::Written),
        Op::Add(_) => {
            let value = take_value(words, op)?;
            Some(Reply::Old(value))
        }
    }
}

// Whether so many pages from the address on lie in P0 pages 0 to 4095 or in the last 1024 pages of P1.
fn is_range(at: Addr, pages: u32) -> bool
    ensures { IsTrue result ↔ IsRange at.0 pages }
{
    let end = u64::from(at.0) + u64::from(PAGE_BYTES) * u64::from(pages);
    at.0 % PAGE_BYTES == 0
        && 1 <= pages
        && pages <= P0_PAGES
        && (end <= 0x20_0000 || (0x7ff8_0000 <= at.0 && end <= 0x8000_0000))
}

fn take_range(words: &mut Words<'_>) -> Option<(Addr, u32)>
    ensures { Takes (λ x. IsRange x.0.0 x.1) (λ x. range_words x.0.0 x.1) words.old words.new result }
{
    let at = take_page_start(words)?;
    let pages = take_count(words)?;
    if !is_range(at, pages) {
        return None;
    }
    Some((at, pages))
}

pub(crate) fn take_service(words: &mut Words<'_>) -> Option<Service>
    ensures { Takes IsWellFormedService service_words words.old words.new result }
{
    let name = words.next_word()?;
    if is(name, b"ADJWSL") {
        let limit = take_count(words)?;
        return Some(Service::Adjust { limit });
    }
    let (at, pages) = take_range(words)?;
    if is(name, b"CRETVA") {
        let prot = take_protection(words)?;
        return Some(Service::Create { at, pages, prot });
    }
    if is(name, b"SETPRT") {
        let prot = take_protection(words)?;
        return Some(Service::Protect { at, pages, prot });
    }
    if is(name, b"DELTVA") {
        Some(Service::Delete { at, pages })
    } else if is(name, b"LKWSET") {
        Some(Service::Lock { at, pages })
    } else if is(name, b"ULWSET") {
        Some(Service::Unlock { at, pages })
    } else if is(name, b"PURGWS") {
        Some(Service::Purge { at, pages })
    } else if is(name, b"LCKPAG") {
        Some(Service::Pin { at, pages })
    } else if is(name, b"ULKPAG") {
        Some(Service::Unpin { at, pages })
    } else {
        None
    }
}

pub(crate) fn last_answer(words: &mut Words<'_>) -> Option<Answer>
    ensures { Reads HasAnswerWords answer_words words.old result }
{
    let word = words.next_word()?;
    if is(word, b"OK") {
        if let Some(()) = words.end() {
            return Some(Answer::Good);
        }
        let count = take_count(words)?;
        words.end()?;
        return Some(Answer::Count(count));
    }
    words.end()?;
    if is(word, b"INUSE") {
        Some(Answer::InUse)
    } else if is(word, b"UNMAPPED") {
        Some(Answer::Unmapped)
    } else if is(word, b"LOCKLIMIT") {
        Some(Answer::LockLimit)
    } else if is(word, b"BADLIMIT") {
        Some(Answer::BadLimit)
    } else if is(word, b"DISKFAULT") {
        Some(Answer::DiskFault)
    } else {
        None
    }
}
