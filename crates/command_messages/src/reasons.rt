//! Why a line of an input is at fault, in words.

ghost use Rattle.std.specs.Prelude.{◌≡◌, ◌+◌, ◌≤◌, length};
ghost use Rattle.arrayvec.specs.ArrayVec.{array_vec_len};
ghost use Rattle.command_messages.specs.Texts.{Adds, AreWords};
ghost use Rattle.command_messages.specs.Reasons.{begins, body_text, breach_text, first_frames_text, first_reason, frames_text, from_to, is_dump, is_log, is_marked, is_no_start, is_wide, later_reason, most_back, most_front, most_text, number_text, reason_text, rule_text, start_text, with_so, within_text};

use crate::bounds::{
    push_address, push_bytes, push_extent, push_frame, push_locks, push_next, push_pages,
    push_quota, push_regions, push_value,
};
use crate::kinds::{allowed, is_letter, repeated, undeclared, word_kind};
use crate::line_words::line_word;
use crate::places::push_misplaced;
use arrayvec::ArrayVec;
use trace_reader::{Bound, Breach, Cause, Limited};
use trace_words::is;
use vm_text::{after, push_decimal, push_word};

// The rule of a word that is no number where one stands, behind this first word.
fn number_rule(first: &[u8]) -> &'static [u8]
    ensures { AreWords result.now (number_text first.now) 100 }
{
    if is(first, b"DATA") {
        b"the bytes are 1 to 64 pairs of hexadecimal digits"
    } else {
        b"the word stands in the place of a number and is none"
    }
}

// Adds the rule that the word of this number breaks, in a line with these first bytes.
fn push_rule(out: &mut ArrayVec<u8, 768>, word: u8, cause: Cause, text: &[u8])
    requires { array_vec_len out.old ≤ 40 }
    ensures { Adds out.old.items out.new.items (rule_text word cause text.now) 240 }
{
    let first = line_word(1, text);
    match cause {
        Cause::LineTooLong => push_word(out, b"the line has more than 255 bytes"),
        Cause::NotAscii => push_word(
            out,
            b"the line has a byte that is neither a blank, a tab nor a printable character",
        ),
        Cause::TooMany => push_word(
            out,
            b"there are more lines, sections, section pages, processes or requests than a trace may have",
        ),
        Cause::UnknownWord => push_word(
            out,
            allowed(word_kind(first, word), line_word(word, text)),
        ),
        Cause::Misplaced => push_misplaced(out, word, text),
        Cause::NoSuch => push_word(out, undeclared(word_kind(first, word))),
        Cause::BadNumber => push_word(out, number_rule(first)),
        Cause::OutOfRange => push_word(out, b"the number is out of its range"),
        Cause::Unaligned => push_word(
            out,
            b"the address isn't a multiple of the page size or of the width of the reference",
        ),
        Cause::Repeated => push_word(out, repeated(first)),
    }
}

// Adds from where to where a number is.
fn push_range(out: &mut ArrayVec<u8, 768>, low: u32, high: u32)
    requires { array_vec_len out.old ≤ 40 }
    ensures { Adds out.old.items out.new.items (from_to low high) 80 }
{
    if low == high {
        push_word(out, b"the number is ");
        push_decimal(out, u64::from(low));
    } else {
        push_word(out, b"the number is from ");
        push_decimal(out, u64::from(low));
        push_word(out, b" to ");
        push_decimal(out, u64::from(high));
    }
}

// Adds from where to where a number of frames in version 1 is.
fn push_first_frames(out: &mut ArrayVec<u8, 768>, low: u32, high: u32)
    requires { array_vec_len out.old ≤ 40 }
    ensures { Adds out.old.items out.new.items (first_frames_text low high) 240 }
{
    push_range(out, low, high);
    push_word(out, b", and in version 2 to 16384");
}

// Adds from where to where the word of this number is, behind this first word.
fn push_within(out: &mut ArrayVec<u8, 768>, first: &[u8], word: u8, low: u32, high: u32)
    requires { array_vec_len out.old ≤ 40 }
    ensures { Adds out.old.items out.new.items (within_text first.now word low high) 240 }
{
    if is_letter(first) && word == 4 && low == 0 {
        push_value(out, high);
    } else if is(first, b"FRAMES") && high == 4096 {
        push_first_frames(out, low, high);
    } else {
        push_range(out, low, high);
    }
}

// Adds what a value is, and what follows from it with the same number.
fn push_so(out: &mut ArrayVec<u8, 768>, name: &[u8], n: u32, so: &[u8], back: &[u8])
    requires short { length name.now + length so.now + length back.now ≤ 160 }
    requires room { array_vec_len out.old ≤ 40 }
    ensures { Adds out.old.items out.new.items (with_so name.now n so.now back.now) 240 }
{
    push_word(out, name);
    push_word(out, b" is ");
    push_decimal(out, u64::from(n));
    push_word(out, b", so ");
    push_word(out, so);
    push_word(out, b" ");
    push_decimal(out, u64::from(n));
    push_word(out, back);
}

// What stands before the number of these that a trace has at most.
fn most_front(limited: Limited) -> &'static [u8]
    ensures { AreWords result.now (most_front limited) 50 }
{
    match limited {
        Limited::Lines | Limited::Requests => b"a trace of this version has at most ",
        Limited::Sections | Limited::SectionPages | Limited::Processes => b"a trace has at most ",
    }
}

// And what stands behind it.
fn most_back(limited: Limited) -> &'static [u8]
    ensures { AreWords result.now (most_back limited) 50 }
{
    match limited {
        Limited::Lines => b" lines",
        Limited::Requests => b" requests",
        Limited::Sections => b" sections",
        Limited::SectionPages => b" pages of sections",
        Limited::Processes => b" processes",
    }
}

// Adds how many of these a trace has at most.
fn push_most(out: &mut ArrayVec<u8, 768>, limited: Limited, n: u32)
    requires { array_vec_len out.old ≤ 40 }
    ensures { Adds out.old.items out.new.items (most_text limited n) 240 }
{
    push_word(out, most_front(limited));
    push_decimal(out, u64::from(n));
    push_word(out, most_back(limited));
}

// Adds the frames that BODY finds to be too few, and nothing of another bound.
fn push_frames(out: &mut ArrayVec<u8, 768>, bound: Bound)
    requires { array_vec_len out.old ≤ 40 }
    ensures { Adds out.old.items out.new.items (frames_text bound) 240 }
{
    match bound {
        Bound::Frames(n) => push_so(
            out,
            b"FRAMES",
            n,
            b"the greatest extent, the bad frames and 2 are together at most",
            b"",
        ),
        Bound::FramesAndLocks(n) => push_so(
            out,
            b"FRAMES",
            n,
            b"the greatest extent, the bad frames, the locks of all processes and 2 are together at most",
            b"",
        ),
        _ => {}
    }
}

// Adds the order of parameters or the frames that BODY finds broken, and no more of another bound.
fn push_body_bound(out: &mut ArrayVec<u8, 768>, bound: Bound)
    requires { array_vec_len out.old ≤ 40 }
    ensures { Adds out.old.items out.new.items (body_text bound) 240 }
{
    match bound {
        Bound::LoLimit(n) => push_so(
            out,
            b"HILIMIT",
            n,
            b"LOLIMIT is at most",
            b"; without lines PARAM they are 128 and 32",
        ),
        Bound::HiLimit(n) => push_so(
            out,
            b"WAITLIMIT",
            n,
            b"HILIMIT is at most",
            b"; without lines PARAM they are 256 and 128",
        ),
        Bound::FreeLim(n) => push_so(
            out,
            b"FREEGOAL",
            n,
            b"FREELIM is at most",
            b"; without lines PARAM both are 0",
        ),
        _ => push_frames(out, bound),
    }
}

// Adds what may stand in the place of the word of a breach, or the rule that it breaks if that is anything.
fn push_breach(out: &mut ArrayVec<u8, 768>, breach: Breach, text: &[u8])
    requires { array_vec_len out.old ≤ 40 }
    ensures { Adds out.old.items out.new.items (breach_text breach text.now) 240 }
{
    match breach.bound {
        Bound::Free => push_rule(out, breach.word, breach.cause, text),
        Bound::Within(low, high) => push_within(out, line_word(1, text), breach.word, low, high),
        Bound::Multiple(bytes) => push_address(out, breach.cause, bytes),
        Bound::Next(p) => push_next(out, p),
        Bound::BelowFrames(n) => push_frame(out, n, text),
        Bound::Bytes(n) => push_bytes(out, n, text),
        Bound::Pages(n) => push_pages(out, n, text),
        Bound::Regions => push_regions(out, text),
        Bound::Locks(n) => push_locks(out, n, text),
        Bound::Quota(n) => push_quota(out, n, text),
        Bound::Extent(n) => push_extent(out, n, text),
        Bound::Most(limited, n) => push_most(out, limited, n),
        _ => push_body_bound(out, breach.bound),
    }
}

// Whether the first word of a line begins none, or none here.
fn is_no_start(cause: Cause) -> bool
    ensures { result ≡ is_no_start cause }
{
    match cause {
        Cause::UnknownWord | Cause::Misplaced => true,
        _ => false,
    }
}

// Adds why the first line of an input is at fault, where it can be a trace's.
fn push_start(out: &mut ArrayVec<u8, 768>, breach: Breach, text: &[u8])
    requires { array_vec_len out.old ≤ 40 }
    ensures { Adds out.old.items out.new.items (start_text breach text.now) 240 }
{
    if breach.word == 1 && is_no_start(breach.cause) {
        push_word(
            out,
            b"a trace begins with VMTRACE 1, VMTRACE 2 or LONGTRACE 2",
        );
    } else {
        push_breach(out, breach, text);
    }
}

// Whether the text begins with these bytes.
fn begins(front: &[u8], text: &[u8]) -> bool
    ensures { result ≡ begins front.now text.now }
{
    match after(text, front) {
        Some(_) => true,
        None => false,
    }
}

// Whether a byte order mark of UTF-16 stands in front, of either order.
fn is_wide(text: &[u8]) -> bool
    ensures { result ≡ is_wide text.now }
{
    begins(b"\xFE\xFF", text) || begins(b"\xFF\xFE", text)
}

// Whether it begins as a log does, with an entry or with the report.
fn is_log(text: &[u8]) -> bool
    ensures { result ≡ is_log text.now }
{
    begins(b"1 ", text) || begins(b"PFN AT ", text)
}

// Adds why a first line is at fault.
fn push_first(out: &mut ArrayVec<u8, 768>, breach: Breach, text: &[u8])
    requires { array_vec_len out.old ≤ 40 }
    ensures { Adds out.old.items out.new.items (first_reason (start_text breach text.now) text.now) 240 }
{
    if begins(b"\xEF\xBB\xBF", text) {
        push_word(
            out,
            b"a byte order mark stands in front of the trace, which is plain ASCII",
        );
    } else if is_wide(text) {
        push_word(
            out,
            b"the input begins as UTF-16 does, and a trace is plain ASCII",
        );
    } else if is_log(text) {
        push_word(
            out,
            b"the input begins as a log does, and a trace begins with VMTRACE",
        );
    } else if begins(b"VMSDUMP", text) {
        push_word(
            out,
            b"the input begins as a dump does, and a trace begins with VMTRACE",
        );
    } else {
        push_start(out, breach, text);
    }
}

// Adds why a later line is at fault.
fn push_later(out: &mut ArrayVec<u8, 768>, breach: Breach, text: &[u8])
    requires { array_vec_len out.old ≤ 40 }
    ensures { Adds out.old.items out.new.items (later_reason (breach_text breach text.now) text.now) 240 }
{
    if text.len() == 3 && begins(b"LOG", text) {
        push_word(
            out,
            b"LOG stands behind the line END, and check alone reads it",
        );
    } else {
        push_breach(out, breach, text);
    }
}

/// Adds why a line of this number is at fault, in at most 240 bytes.
pub(crate) fn push_reason(out: &mut ArrayVec<u8, 768>, number: u32, breach: Breach, text: &[u8])
    requires { array_vec_len out.old ≤ 40 }
    ensures { Adds out.old.items out.new.items (reason_text number breach text.now) 240 }
{
    if number == 1 {
        push_first(out, breach, text);
    } else {
        push_later(out, breach, text);
    }
}
