ghost use Rattle.std.specs.Prelude.{◌≡◌, ◌≢◌, ℕ, List, ◌+◌, ◌^◌, ◌<◌, ◌≤◌, ◌∷◌, [], decimal, IfOk, OnErr};
ghost use Rattle.vm_text.specs.Named.{AreNames};
ghost use Rattle.vm_text.specs.Names.{seat_name};
ghost use Rattle.vm_text.specs.Readings.{Reads, Takes};
ghost use Rattle.vm_types.specs.declared.config.Section.{Section};
ghost use Rattle.vm_journal.specs.declared.entry.Entry.{Entry};
ghost use Rattle.vm_journal.specs.HasLine.{HasLine, IsEntryNumber, WhatHasLine};
ghost use Rattle.vm_journal.specs.Line.{entry_words, kind_of, kind_word, line_text, part_words};
ghost use Rattle.entry_lines.specs.OfKind.{IsOfKind};

use crate::read::{
    read_back, read_collide, read_denied, read_done, read_evict, read_in, read_in_fail, read_in_ok,
    read_limit, read_out, read_out_fail, read_out_ok, read_reuse, read_served, read_turn,
    read_zero,
};
use crate::take::take_number;
use crate::words::Words;
use std::fmt;
use vm_journal::{Entry, Kind, What};
use vm_text::read_seat;
use vm_types::{Seat, Section};

/// The text is the line of no entry.
#[derive(Clone, Copy, Debug, PartialEq, Eq)]
pub struct BadLine;

impl fmt::Display for BadLine {
    fn fmt<W: fmt::Write>(&self, f: &mut fmt::Formatter<W>) -> fmt::Result {
        write!(f, "the text is the line of no entry")
    }
}

// The kind of this first word.
fn read_kind(word: &[u8]) -> Option<Kind>
    ensures { Reads (λ _. Unit {0}) kind_word word.now result }
{
    match word {
        b"DONE" => Some(Kind::Done),
        b"ZERO" => Some(Kind::Zero),
        b"EVICT" => Some(Kind::Evict),
        b"BACK" => Some(Kind::Back),
        b"IN" => Some(Kind::In),
        b"INOK" => Some(Kind::InOk),
        b"OUT" => Some(Kind::Out),
        b"OUTOK" => Some(Kind::OutOk),
        b"REUSE" => Some(Kind::Reuse),
        b"TURN" => Some(Kind::Turn),
        b"DENIED" => Some(Kind::Denied),
        b"SERVED" => Some(Kind::Served),
        b"LIMIT" => Some(Kind::Limit),
        b"COLLIDE" => Some(Kind::Collide),
        b"INFAIL" => Some(Kind::InFail),
        b"OUTFAIL" => Some(Kind::OutFail),
        _ => None,
    }
}

// The parts of an entry of this kind.
fn read_parts(words: &mut Words<'_>, kind: Kind, procs: u32, names: &[Section]) -> Option<What>
    requires { AreNames procs names.now }
    ensures { Reads (IsOfKind procs names.now kind) (part_words names.now) words.old result }
{
    match kind {
        Kind::Done => read_done(words, procs, names),
        Kind::Denied => read_denied(words, procs, names),
        Kind::Served => read_served(words, procs, names),
        Kind::Reuse => read_reuse(words, procs, names),
        Kind::Zero => read_zero(words, procs, names),
        Kind::Back => read_back(words, procs, names),
        Kind::Collide => read_collide(words, procs, names),
        Kind::In => read_in(words, procs, names),
        Kind::InOk => read_in_ok(words, procs, names),
        Kind::InFail => read_in_fail(words, procs, names),
        Kind::Out => read_out(words, procs, names),
        Kind::OutOk => read_out_ok(words, procs, names),
        Kind::OutFail => read_out_fail(words, procs, names),
        Kind::Evict => read_evict(words, procs, names),
        Kind::Limit => read_limit(words, procs, names),
        Kind::Turn => read_turn(words, procs, names),
    }
}

// The kind of an entry, and its parts.
fn read_what(words: &mut Words<'_>, procs: u32, names: &[Section]) -> Option<What>
    requires { AreNames procs names.now }
    ensures { Reads (WhatHasLine procs names.now) (λ w. kind_word (kind_of w) ∷ part_words names.now w) words.old result }
{
    let word = words.next_word()?;
    let kind = read_kind(word)?;
    read_parts(words, kind, procs, names)
}

fn take_seat(words: &mut Words<'_>, procs: u32) -> Option<Seat>
    requires { procs ≤ 16 }
    ensures { Takes (λ s. s.0 ≤ procs + 1) (λ s. seat_name procs s.0 ∷ []) words.old words.new result }
{
    let word = words.next_word()?;
    read_seat(word, procs)
}

// An entry with its number.
fn read_entry(words: &mut Words<'_>, procs: u32, names: &[Section]) -> Option<(u64, Entry)>
    requires { AreNames procs names.now }
    ensures { Reads (λ x. IsEntryNumber x.0 × HasLine procs names.now x.1) (λ x. decimal x.0 ∷ entry_words procs names.now x.1) words.old result }
{
    let number = take_number(words)?;
    let seat = take_seat(words, procs)?;
    let what = read_what(words, procs, names)?;
    Some((number, Entry { seat, what }))
}

/// The number and the entry whose line is this text. `procs` is the number of processes, and `names`
/// are the sections. Doesn't allocate, and goes over the text a constant number of times.
///
/// # Errors
/// `BadLine` exactly if no number below 2^64 and entry that has a line have this text.
pub fn read_line(text: &[u8], procs: u32, names: &[Section]) -> Result<(u64, Entry), BadLine>
    requires names { AreNames procs names.now }
    ensures line { IfOk result (λ x. HasLine procs names.now x.1 × (line_text x.0 x.1 procs names.now ≡ text.now)) }
    ensures bad { OnErr result ((number : ℕ) (e : Entry) → IsEntryNumber number → HasLine procs names.now e → line_text number e procs names.now ≢ text.now) }
{
    let mut words = Words::of(text);
    match read_entry(&mut words, procs, names) {
        Some(read) => Ok(read),
        None => Err(BadLine),
    }
}

/// Lines are one to one: two numbers below 2^64 with entries that have the same line are one number
/// and one entry. Does nothing: it is this law.
pub fn lines_are_one_to_one()
    ensures { (procs : ℕ) (names : List Section) (n m : ℕ) (e f : Entry) → AreNames procs names → IsEntryNumber n → IsEntryNumber m
        → HasLine procs names e → HasLine procs names f → line_text n e procs names ≡ line_text m f procs names → (n ≡ m) × (e ≡ f) }
{}
