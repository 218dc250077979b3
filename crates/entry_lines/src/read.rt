// The parts of an entry, read: one function for each kind, to the end of the line.
ghost use Rattle.std.specs.Prelude.{◌≡◌, ◌^◌, ◌<◌, ◌≤◌, [], ◌∷◌, decimal};
ghost use Rattle.vm_text.specs.Named.{AreNames, IsNamedPage, IsPlace};
ghost use Rattle.vm_text.specs.Names.{frame_text, page_text, place_text};
ghost use Rattle.vm_text.specs.Readings.{Reads, Takes};
ghost use Rattle.vm_journal.specs.declared.entry.Kind.TheVariants as kind;
ghost use Rattle.vm_journal.specs.HasLine.{IsEntryNumber, IsFrameNumber, RoleHasWords};
ghost use Rattle.vm_journal.specs.Line.{evict_word, part_words, role_words};
ghost use Rattle.entry_lines.specs.OfKind.{IsOfKind};

use crate::requests::{last_answer, take_reference, take_reply, take_service};
use crate::take::{
    take_block, take_count, take_frame, take_number, take_page, take_page_start, take_place,
    take_process, take_state, take_status, take_why,
};
use crate::words::Words;
use vm_journal::{EvictWhy, Role, What};
use vm_text::is;
use vm_types::{Addr, Page, Pfn, Proc, Section};

fn last_place(words: &mut Words<'_>, procs: u32) -> Option<(Proc, Addr)>
    requires { procs ≤ 16 }
    ensures { Reads (λ x. IsPlace procs x.0.0 x.1.0) (λ x. place_text x.0.0 x.1.0 ∷ []) words.old result }
{
    let place = take_place(words, procs)?;
    words.end()?;
    Some(place)
}

fn last_page(words: &mut Words<'_>, procs: u32, names: &[Section]) -> Option<Page>
    requires { AreNames procs names.now }
    ensures { Reads (IsNamedPage procs names.now) (λ page. page_text names.now page ∷ []) words.old result }
{
    let page = take_page(words, procs, names)?;
    words.end()?;
    Some(page)
}

// What a read is for.
fn last_role(words: &mut Words<'_>, procs: u32, names: &[Section]) -> Option<Role>
    requires { AreNames procs names.now }
    ensures { Reads (RoleHasWords procs names.now) (role_words names.now) words.old result }
{
    let word = words.next_word()?;
    if is(word, b"FAULT") {
        let (process, address) = last_place(words, procs)?;
        return Some(Role::Fault(process, address));
    }
    if is(word, b"NEAR") {
        let page = last_page(words, procs, names)?;
        return Some(Role::Near(page));
    }
    if is(word, b"COME") {
        let (process, address) = last_place(words, procs)?;
        return Some(Role::Come(process, address));
    }
    None
}

// A frame, and the number of the entry that began its transfer.
fn last_flight(words: &mut Words<'_>) -> Option<(Pfn, u64)>
    ensures { Reads (λ x. IsFrameNumber x.0.0 × IsEntryNumber x.1) (λ x. frame_text x.0.0 ∷ decimal x.1 ∷ []) words.old result }
{
    let f = take_frame(words)?;
    let k = take_number(words)?;
    words.end()?;
    Some((f, k))
}

// A transfer that failed, and its block's count of failures before and after it.
fn last_failed(words: &mut Words<'_>) -> Option<(Pfn, u64, u64, u64)>
    ensures { Reads (λ x. IsFrameNumber x.0.0 × IsEntryNumber x.1 × (x.2 < 2 ^ 64) × (x.3 < 2 ^ 64))
        (λ x. frame_text x.0.0 ∷ decimal x.1 ∷ decimal x.2 ∷ decimal x.3 ∷ []) words.old result }
{
    let f = take_frame(words)?;
    let k = take_number(words)?;
    let c = take_number(words)?;
    let d = take_number(words)?;
    words.end()?;
    Some((f, k, c, d))
}

pub(crate) fn read_reuse(words: &mut Words<'_>, procs: u32, names: &[Section]) -> Option<What>
    requires { AreNames procs names.now }
    ensures { Reads (IsOfKind procs names.now kind.Reuse) (part_words names.now) words.old result }
{
    let f = take_frame(words)?;
    let page = take_page(words, procs, names)?;
    words.end()?;
    Some(What::Reuse { f, page })
}

pub(crate) fn read_zero(words: &mut Words<'_>, procs: u32, names: &[Section]) -> Option<What>
    requires { AreNames procs names.now }
    ensures { Reads (IsOfKind procs names.now kind.Zero) (part_words names.now) words.old result }
{
    let a = take_page_start(words)?;
    let f = take_frame(words)?;
    words.end()?;
    Some(What::Zero { a, f })
}

pub(crate) fn read_back(words: &mut Words<'_>, procs: u32, names: &[Section]) -> Option<What>
    requires { AreNames procs names.now }
    ensures { Reads (IsOfKind procs names.now kind.Back) (part_words names.now) words.old result }
{
    let p = take_process(words, procs)?;
    let a = take_page_start(words)?;
    let f = take_frame(words)?;
    let from = take_state(words)?;
    words.end()?;
    Some(What::Back { p, a, f, from })
}

pub(crate) fn read_collide(words: &mut Words<'_>, procs: u32, names: &[Section]) -> Option<What>
    requires { AreNames procs names.now }
    ensures { Reads (IsOfKind procs names.now kind.Collide) (part_words names.now) words.old result }
{
    let a = take_page_start(words)?;
    let f = take_frame(words)?;
    let k = take_number(words)?;
    words.end()?;
    Some(What::Collide { a, f, k })
}

pub(crate) fn read_in(words: &mut Words<'_>, procs: u32, names: &[Section]) -> Option<What>
    requires { AreNames procs names.now }
    ensures { Reads (IsOfKind procs names.now kind.In) (part_words names.now) words.old result }
{
    let f = take_frame(words)?;
    let block = take_block(words, procs, names)?;
    let role = last_role(words, procs, names)?;
    Some(What::In { f, block, role })
}

pub(crate) fn read_in_ok(words: &mut Words<'_>, procs: u32, names: &[Section]) -> Option<What>
    requires { AreNames procs names.now }
    ensures { Reads (IsOfKind procs names.now kind.InOk) (part_words names.now) words.old result }
{
    let (f, k) = last_flight(words)?;
    Some(What::InOk { f, k })
}

pub(crate) fn read_in_fail(words: &mut Words<'_>, procs: u32, names: &[Section]) -> Option<What>
    requires { AreNames procs names.now }
    ensures { Reads (IsOfKind procs names.now kind.InFail) (part_words names.now) words.old result }
{
    let (f, k, c, d) = last_failed(words)?;
    Some(What::InFail { f, k, c, d })
}

pub(crate) fn read_out(words: &mut Words<'_>, procs: u32, names: &[Section]) -> Option<What>
    requires { AreNames procs names.now }
    ensures { Reads (IsOfKind procs names.now kind.Out) (part_words names.now) words.old result }
{
    let f = take_frame(words)?;
    let block = take_block(words, procs, names)?;
    words.end()?;
    Some(What::Out { f, block })
}

pub(crate) fn read_out_ok(words: &mut Words<'_>, procs: u32, names: &[Section]) -> Option<What>
    requires { AreNames procs names.now }
    ensures { Reads (IsOfKind procs names.now kind.OutOk) (part_words names.now) words.old result }
{
    let (f, k) = last_flight(words)?;
    Some(What::OutOk { f, k })
}

pub(crate) fn read_out_fail(words: &mut Words<'_>, procs: u32, names: &[Section]) -> Option<What>
    requires { AreNames procs names.now }
    ensures { Reads (IsOfKind procs names.now kind.OutFail) (part_words names.now) words.old result }
{
    let (f, k, c, d) = last_failed(words)?;
    Some(What::OutFail { f, k, c, d })
}

// Why a page leaves the working set, by its word.
fn read_evict_why(word: &[u8]) -> Option<EvictWhy>
    ensures { Reads (λ _. Unit {0}) evict_word word.now result }
{
    match word {
        b"REPLACE" => Some(EvictWhy::Replace),
        b"PURGE" => Some(EvictWhy::Purge),
        b"DELETE" => Some(EvictWhy::Delete),
        b"LEAVE" => Some(EvictWhy::Leave),
        b"RUNDOWN" => Some(EvictWhy::Rundown),
        _ => None,
    }
}

fn take_evict_why(words: &mut Words<'_>) -> Option<EvictWhy>
    ensures { Takes (λ _. Unit {0}) (λ why. evict_word why ∷ []) words.old words.new result }
{
    let word = words.next_word()?;
    read_evict_why(word)
}

pub(crate) fn read_evict(words: &mut Words<'_>, procs: u32, names: &[Section]) -> Option<What>
    requires { AreNames procs names.now }
    ensures { Reads (IsOfKind procs names.now kind.Evict) (part_words names.now) words.old result }
{
    let p = take_process(words, procs)?;
    let a = take_page_start(words)?;
    let f = take_frame(words)?;
    let why = take_evict_why(words)?;
    let to = take_state(words)?;
    words.end()?;
    Some(What::Evict { p, a, f, why, to })
}

pub(crate) fn read_limit(words: &mut Words<'_>, procs: u32, names: &[Section]) -> Option<What>
    requires { AreNames procs names.now }
    ensures { Reads (IsOfKind procs names.now kind.Limit) (part_words names.now) words.old result }
{
    let n = take_count(words)?;
    let faults = take_number(words)?;
    words.end()?;
    Some(What::Limit { n, faults })
}

pub(crate) fn read_turn(words: &mut Words<'_>, procs: u32, names: &[Section]) -> Option<What>
    requires { AreNames procs names.now }
    ensures { Reads (IsOfKind procs names.now kind.Turn) (part_words names.now) words.old result }
{
    let p = take_process(words, procs)?;
    let status = take_status(words)?;
    words.end()?;
    Some(What::Turn { p, status })
}

pub(crate) fn read_done(words: &mut Words<'_>, procs: u32, names: &[Section]) -> Option<What>
    requires { AreNames procs names.now }
    ensures { Reads (IsOfKind procs names.now kind.Done) (part_words names.now) words.old result }
{
    let r = take_reference(words)?;
    let reply = take_reply(words, r.op)?;
    words.end()?;
    Some(What::Done { r, reply })
}

pub(crate) fn read_denied(words: &mut Words<'_>, procs: u32, names: &[Section]) -> Option<What>
    requires { AreNames procs names.now }
    ensures { Reads (IsOfKind procs names.now kind.Denied) (part_words names.now) words.old result }
{
    let r = take_reference(words)?;
    let why = take_why(words)?;
    words.end()?;
    Some(What::Denied { r, why })
}

pub(crate) fn read_served(words: &mut Words<'_>, procs: u32, names: &[Section]) -> Option<What>
    requires { AreNames procs names.now }
    ensures { Reads (IsOfKind procs names.now kind.Served) (part_words names.now) words.old result }
{
    let s = take_service(words)?;
    let answer = last_answer(words)?;
    Some(What::Served { s, answer })
}
