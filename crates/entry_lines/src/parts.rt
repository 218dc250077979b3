// The words behind an entry's kind, each behind a blank.
ghost use Rattle.std.specs.Prelude.{◌≡◌, ◌+◌, ◌<◌, ◌≤◌, ◌++◌, ◌∷◌, [], decimal};
ghost use Rattle.arrayvec.specs.ArrayVec.{array_vec_len};
ghost use Rattle.vm_types.specs.WellFormed.{IsWellFormedService};
ghost use Rattle.vm_text.specs.Named.{AreNames, IsPrintableBlock};
ghost use Rattle.vm_text.specs.Names.{process_name, address_text, frame_text, block_text};
ghost use Rattle.vm_text.specs.References.{operand_words, reference_words, reply_words, why_word};
ghost use Rattle.vm_text.specs.Services.{service_words, answer_words};
ghost use Rattle.vm_text.specs.Spaced.{spaced};
ghost use Rattle.vm_text.specs.States.{state_word, status_word};
ghost use Rattle.vm_journal.specs.HasLine.{WhatHasLine};
ghost use Rattle.vm_journal.specs.Line.{role_words, evict_word, part_words};
ghost use Rattle.entry_lines.specs.Printable.{IsPrintableRole};

use arrayvec::ArrayVec;
use vm_journal::{EvictWhy, Role, What};
use vm_text::{
    push_address, push_block, push_count, push_decimal, push_frame, push_op, push_page, push_place,
    push_process, push_protection, push_service_name, push_state, push_status, push_value,
    push_why, push_word,
};
use vm_types::{
    Addr, Answer, BlockId, FrameState, Op, Page, Pfn, Proc, ProcStatus, Ref, Reply, Section,
    Service, Why,
};

fn add_frame<const CAP: usize>(out: &mut ArrayVec<u8, CAP>, f: Pfn)
    requires { array_vec_len out.old + 12 ≤ CAP }
    ensures items { out.new.items ≡ out.old.items ++ spaced (frame_text f.0 ∷ []) }
    ensures len { array_vec_len out.new ≤ array_vec_len out.old + 12 }
{
    out.push(b' ');
    push_frame(out, f);
}

fn add_number<const CAP: usize>(out: &mut ArrayVec<u8, CAP>, number: u64)
    requires { array_vec_len out.old + 21 ≤ CAP }
    ensures items { out.new.items ≡ out.old.items ++ spaced (decimal number ∷ []) }
    ensures len { array_vec_len out.new ≤ array_vec_len out.old + 21 }
{
    out.push(b' ');
    push_decimal(out, number);
}

fn add_block<const CAP: usize>(out: &mut ArrayVec<u8, CAP>, block: BlockId, names: &[Section])
    requires block { IsPrintableBlock names.now block }
    requires room { array_vec_len out.old + 29 ≤ CAP }
    ensures items { out.new.items ≡ out.old.items ++ spaced (block_text names.now block ∷ []) }
    ensures len { array_vec_len out.new ≤ array_vec_len out.old + 29 }
{
    out.push(b' ');
    push_block(out, block, names);
}

fn add_process<const CAP: usize>(out: &mut ArrayVec<u8, CAP>, p: Proc)
    requires few { p.0 < 16 }
    requires room { array_vec_len out.old + 2 ≤ CAP }
    ensures items { out.new.items ≡ out.old.items ++ spaced (process_name p.0 ∷ []) }
    ensures len { array_vec_len out.new ≤ array_vec_len out.old + 2 }
{
    out.push(b' ');
    push_process(out, p);
}

fn add_address_frame<const CAP: usize>(out: &mut ArrayVec<u8, CAP>, a: Addr, f: Pfn)
    requires { array_vec_len out.old + 21 ≤ CAP }
    ensures items { out.new.items ≡ out.old.items ++ spaced (address_text a.0 ∷ frame_text f.0 ∷ []) }
    ensures len { array_vec_len out.new ≤ array_vec_len out.old + 21 }
{
    out.push(b' ');
    push_address(out, a);
    add_frame(out, f);
}

// A process, an address and a frame.
fn add_mapped<const CAP: usize>(out: &mut ArrayVec<u8, CAP>, p: Proc, a: Addr, f: Pfn)
    requires few { p.0 < 16 }
    requires room { array_vec_len out.old + 23 ≤ CAP }
    ensures items { out.new.items ≡ out.old.items ++ spaced (process_name p.0 ∷ address_text a.0 ∷ frame_text f.0 ∷ []) }
    ensures len { array_vec_len out.new ≤ array_vec_len out.old + 23 }
{
    add_process(out, p);
    add_address_frame(out, a, f);
}

// The value that is written or added.
#[inline(always)]
fn add_operand<const CAP: usize>(out: &mut ArrayVec<u8, CAP>, op: Op)
    requires { array_vec_len out.old + 9 ≤ CAP }
    ensures items { out.new.items ≡ out.old.items ++ spaced (operand_words op) }
    ensures len { array_vec_len out.new ≤ array_vec_len out.old + 9 }
{
    match op {
        Op::Read(_) => (),
        Op::Write(_, value) | Op::Add(value) => {
            out.push(b' ');
            push_value(out, op, value);
        }
    }
}

// A reference: op and address, and the value that is written or added.
#[inline(always)]
fn add_reference<const CAP: usize>(out: &mut ArrayVec<u8, CAP>, r: Ref)
    requires { array_vec_len out.old + 22 ≤ CAP }
    ensures items { out.new.items ≡ out.old.items ++ spaced (reference_words r) }
    ensures len { array_vec_len out.new ≤ array_vec_len out.old + 22 }
{
    out.push(b' ');
    push_op(out, r.mode, r.op);
    out.push(b' ');
    push_address(out, r.addr);
    add_operand(out, r.op);
}

fn add_done<const CAP: usize>(out: &mut ArrayVec<u8, CAP>, r: Ref, reply: Reply)
    requires { array_vec_len out.old + 31 ≤ CAP }
    ensures items { out.new.items ≡ out.old.items ++ spaced (reference_words r ++ reply_words r.op reply) }
    ensures len { array_vec_len out.new ≤ array_vec_len out.old + 31 }
{
    add_reference(out, r);
    match reply {
        Reply::Value(value) | Reply::Old(value) => {
            out.push(b' ');
            push_value(out, r.op, value);
        }
        Reply::Written | Reply::Refused(_) => (),
    }
}

fn add_denied<const CAP: usize>(out: &mut ArrayVec<u8, CAP>, r: Ref, why: Why)
    requires { array_vec_len out.old + 35 ≤ CAP }
    ensures items { out.new.items ≡ out.old.items ++ spaced (reference_words r ++ why_word why ∷ []) }
    ensures len { array_vec_len out.new ≤ array_vec_len out.old + 35 }
{
    add_reference(out, r);
    out.push(b' ');
    push_why(out, why);
}

// The first address of a range, and its pages.
fn add_range<const CAP: usize>(out: &mut ArrayVec<u8, CAP>, at: Addr, pages: u32)
    requires { array_vec_len out.old + 20 ≤ CAP }
    ensures items { out.new.items ≡ out.old.items ++ spaced (address_text at.0 ∷ decimal pages ∷ []) }
    ensures len { array_vec_len out.new ≤ array_vec_len out.old + 20 }
{
    out.push(b' ');
    push_address(out, at);
    out.push(b' ');
    push_count(out, pages);
}

fn add_service<const CAP: usize>(out: &mut ArrayVec<u8, CAP>, s: Service)
    requires formed { IsWellFormedService s }
    requires room { array_vec_len out.old + 32 ≤ CAP }
    ensures items { out.new.items ≡ out.old.items ++ spaced (service_words s) }
    ensures len { array_vec_len out.new ≤ array_vec_len out.old + 32 }
{
    out.push(b' ');
    push_service_name(out, s);
    match s {
        Service::Create { at, pages, prot } | Service::Protect { at, pages, prot } => {
            add_range(out, at, pages);
            out.push(b' ');
            push_protection(out, prot);
        }
        Service::Delete { at, pages }
        | Service::Lock { at, pages }
        | Service::Unlock { at, pages }
        | Service::Purge { at, pages }
        | Service::Pin { at, pages }
        | Service::Unpin { at, pages } => add_range(out, at, pages),
        Service::Adjust { limit } => {
            out.push(b' ');
            push_count(out, limit);
        }
    }
}

fn add_answer<const CAP: usize>(out: &mut ArrayVec<u8, CAP>, answer: Answer)
    requires { array_vec_len out.old + 14 ≤ CAP }
    ensures items { out.new.items ≡ out.old.items ++ spaced (answer_words answer) }
    ensures len { array_vec_len out.new ≤ array_vec_len out.old + 14 }
{
    out.push(b' ');
    match answer {
        Answer::Good => push_word(out, b"OK"),
        Answer::Count(count) => {
            push_word(out, b"OK");
            out.push(b' ');
            push_count(out, count);
        }
        Answer::InUse => push_word(out, b"INUSE"),
        Answer::Unmapped => push_word(out, b"UNMAPPED"),
        Answer::LockLimit => push_word(out, b"LOCKLIMIT"),
        Answer::BadLimit => push_word(out, b"BADLIMIT"),
        Answer::DiskFault => push_word(out, b"DISKFAULT"),
    }
}

fn add_served<const CAP: usize>(out: &mut ArrayVec<u8, CAP>, s: Service, answer: Answer)
    requires formed { IsWellFormedService s }
    requires room { array_vec_len out.old + 46 ≤ CAP }
    ensures items { out.new.items ≡ out.old.items ++ spaced (service_words s ++ answer_words answer) }
    ensures len { array_vec_len out.new ≤ array_vec_len out.old + 46 }
{
    add_service(out, s);
    add_answer(out, answer);
}

fn add_role<const CAP: usize>(out: &mut ArrayVec<u8, CAP>, role: Role, names: &[Section])
    requires role { IsPrintableRole names.now role }
    requires room { array_vec_len out.old + 33 ≤ CAP }
    ensures items { out.new.items ≡ out.old.items ++ spaced (role_words names.now role) }
    ensures len { array_vec_len out.new ≤ array_vec_len out.old + 33 }
{
    match role {
        Role::Fault(process, address) => {
            push_word(out, b" FAULT ");
            push_place(out, process, address);
        }
        Role::Near(page) => {
            push_word(out, b" NEAR ");
            push_page(out, page, names);
        }
        Role::Come(process, address) => {
            push_word(out, b" COME ");
            push_place(out, process, address);
        }
    }
}

#[inline(always)]
fn add_out<const CAP: usize>(out: &mut ArrayVec<u8, CAP>, f: Pfn, block: BlockId, names: &[Section])
    requires block { IsPrintableBlock names.now block }
    requires room { array_vec_len out.old + 41 ≤ CAP }
    ensures items { out.new.items ≡ out.old.items ++ spaced (frame_text f.0 ∷ block_text names.now block ∷ []) }
    ensures len { array_vec_len out.new ≤ array_vec_len out.old + 41 }
{
    add_frame(out, f);
    add_block(out, block, names);
}

// A frame, and the number of the entry that began its transfer.
fn add_flight<const CAP: usize>(out: &mut ArrayVec<u8, CAP>, f: Pfn, k: u64)
    requires { array_vec_len out.old + 33 ≤ CAP }
    ensures items { out.new.items ≡ out.old.items ++ spaced (frame_text f.0 ∷ decimal k ∷ []) }
    ensures len { array_vec_len out.new ≤ array_vec_len out.old + 33 }
{
    add_frame(out, f);
    add_number(out, k);
}

// A transfer that failed, and its block's count of failures before and after it.
fn add_failed<const CAP: usize>(out: &mut ArrayVec<u8, CAP>, f: Pfn, k: u64, c: u64, d: u64)
    requires { array_vec_len out.old + 75 ≤ CAP }
    ensures items { out.new.items ≡ out.old.items
        ++ spaced (frame_text f.0 ∷ decimal k ∷ decimal c ∷ decimal d ∷ []) }
    ensures len { array_vec_len out.new ≤ array_vec_len out.old + 75 }
{
    add_flight(out, f, k);
    add_number(out, c);
    add_number(out, d);
}

// Why a page leaves the working set.
fn add_evict_why<const CAP: usize>(out: &mut ArrayVec<u8, CAP>, why: EvictWhy)
    requires { array_vec_len out.old + 8 ≤ CAP }
    ensures items { out.new.items ≡ out.old.items ++ spaced (evict_word why ∷ []) }
    ensures len { array_vec_len out.new ≤ array_vec_len out.old + 8 }
{
    match why {
        EvictWhy::Replace => push_word(out, b" REPLACE"),
        EvictWhy::Purge => push_word(out, b" PURGE"),
        EvictWhy::Delete => push_word(out, b" DELETE"),
        EvictWhy::Leave => push_word(out, b" LEAVE"),
        EvictWhy::Rundown => push_word(out, b" RUNDOWN"),
    }
}

fn add_limit<const CAP: usize>(out: &mut ArrayVec<u8, CAP>, n: u32, faults: u64)
    requires { array_vec_len out.old + 32 ≤ CAP }
    ensures items { out.new.items ≡ out.old.items ++ spaced (decimal n ∷ decimal faults ∷ []) }
    ensures len { array_vec_len out.new ≤ array_vec_len out.old + 32 }
{
    out.push(b' ');
    push_count(out, n);
    add_number(out, faults);
}

fn add_turn<const CAP: usize>(out: &mut ArrayVec<u8, CAP>, p: Proc, status: ProcStatus)
    requires few { p.0 < 16 }
    requires room { array_vec_len out.old + 11 ≤ CAP }
    ensures items { out.new.items ≡ out.old.items ++ spaced (process_name p.0 ∷ status_word status ∷ []) }
    ensures len { array_vec_len out.new ≤ array_vec_len out.old + 11 }
{
    add_process(out, p);
    out.push(b' ');
    push_status(out, status);
}

pub(crate) fn push_parts<const CAP: usize>(
    out: &mut ArrayVec<u8, CAP>,
    what: &What,
    procs: u32,
    names: &[Section],
)
    requires names { AreNames procs names.now }
    requires has_line { WhatHasLine procs names.now what.now }
    requires room { array_vec_len out.old + 76 ≤ CAP }
    ensures items { out.new.items ≡ out.old.items ++ spaced (part_words names.now what.now) }
    ensures len { array_vec_len out.new ≤ array_vec_len out.old + 75 }
{
    match *what {
        What::Done { r, reply } => add_done(out, r, reply),
        What::Denied { r, why } => add_denied(out, r, why),
        What::Served { s, answer } => add_served(out, s, answer),
        What::Reuse { f, page } => {
            add_frame(out, f);
            out.push(b' ');
            push_page(out, page, names);
        }
        What::Zero { a, f } => add_address_frame(out, a, f),
        What::Back { p, a, f, from } => {
            add_mapped(out, p, a, f);
            out.push(b' ');
            push_state(out, from);
        }
        What::Collide { a, f, k } => {
            add_address_frame(out, a, f);
            add_number(out, k);
        }
        What::In { f, block, role } => {
            add_out(out, f, block, names);
            add_role(out, role, names);
        }
        What::InOk { f, k } | What::OutOk { f, k } => add_flight(out, f, k),
        What::InFail { f, k, c, d } | What::OutFail { f, k, c, d } => add_failed(out, f, k, c, d),
        What::Out { f, block } => add_out(out, f, block, names),
        What::Evict { p, a, f, why, to } => {
            add_mapped(out, p, a, f);
            add_evict_why(out, why);
            out.push(b' ');
            push_state(out, to);
        }
        What::Limit { n, faults } => add_limit(out, n, faults),
        What::Turn { p, status } => add_turn(out, p, status),
    }
}
