//! The bound that is at play, with the numbers, and the word that is over it.

ghost use Rattle.std.specs.Prelude.{◌≡◌, ◌+◌, ◌<◌, ◌≤◌, if◌then◌else◌, length};
ghost use Rattle.arrayvec.specs.ArrayVec.{array_vec_len};
ghost use Rattle.command_messages.specs.Texts.{Adds};
ghost use Rattle.command_messages.specs.Bounds.{address_text, bytes_text, digits_of, extent_text, frame_text, is_below, left_of, locks_text, next_letter_text, next_process_text, over_word, pages_from, pages_text, quota_text, regions_text, value_is, value_text, has_to_be, with_one};

use crate::line_words::{line_address, line_number};
use arrayvec::ArrayVec;
use trace_reader::{Bound, Cause};
use vm_text::{push_decimal, push_hex, push_process, push_word};
use vm_types::{PAGE_BYTES, Proc};

// The digits of a value up to this.
fn digits_of(high: u32) -> u32
    ensures value { result ≡ digits_of high }
    ensures few { result ≤ 8 }
{
    if high <= 255 {
        2
    } else if high <= 65_535 {
        4
    } else {
        8
    }
}

// Adds from where to where a value of a request is.
pub(crate) fn push_value(out: &mut ArrayVec<u8, 768>, high: u32)
    requires { array_vec_len out.old ≤ 40 }
    ensures { Adds out.old.items out.new.items (value_text high) 240 }
{
    push_word(
        out,
        b"the value has 1 to 8 hexadecimal digits, and is from 0 to ",
    );
    push_hex(out, high, digits_of(high));
}

// Adds a text with a number.
fn push_one(out: &mut ArrayVec<u8, 768>, front: &[u8], n: u64, back: &[u8])
    requires front { length front.now ≤ 100 }
    requires back { length back.now ≤ 60 }
    requires room { array_vec_len out.old ≤ 40 }
    ensures { Adds out.old.items out.new.items (with_one front.now n back.now) 240 }
{
    push_word(out, front);
    push_decimal(out, n);
    push_word(out, back);
}

// Adds what a value is, if it is known.
fn push_value_is(out: &mut ArrayVec<u8, 768>, value: Option<u32>)
    requires { array_vec_len out.old ≤ 200 }
    ensures { Adds out.old.items out.new.items (value_is value) 30 }
{
    if let Some(n) = value {
        push_word(out, b" is ");
        push_decimal(out, u64::from(n));
        push_word(out, b", and");
    }
}

// Adds the same, and what it has to be.
fn push_has_to_be(
    out: &mut ArrayVec<u8, 768>,
    name: &[u8],
    value: Option<u32>,
    bound: &[u8],
    n: u64,
)
    requires short { length name.now + length bound.now ≤ 100 }
    requires room { array_vec_len out.old ≤ 40 }
    ensures { Adds out.old.items out.new.items (has_to_be name.now value bound.now n) 240 }
{
    push_word(out, name);
    push_value_is(out, value);
    push_word(out, b" has to be ");
    push_word(out, bound);
    push_word(out, b", which is ");
    push_decimal(out, n);
}

// Adds what an address has to be.
pub(crate) fn push_address(out: &mut ArrayVec<u8, 768>, cause: Cause, n: u32)
    requires { array_vec_len out.old ≤ 40 }
    ensures { Adds out.old.items out.new.items (address_text cause n) 240 }
{
    match cause {
        Cause::Unaligned => {
            if n == PAGE_BYTES {
                push_word(
                    out,
                    b"the address is a multiple of 512, which is 200 in hexadecimal digits",
                );
            } else {
                push_one(out, b"the address is a multiple of ", u64::from(n), b"");
            }
        }
        _ => push_word(
            out,
            b"the address has 1 to 8 hexadecimal digits, and nothing before them",
        ),
    }
}

// Adds which process is next, that of this number from 0.
fn push_next_letter(out: &mut ArrayVec<u8, 768>, p: u32)
    requires few { p < 16 }
    requires room { array_vec_len out.old ≤ 40 }
    ensures { Adds out.old.items out.new.items (next_letter_text p) 240 }
{
    push_word(out, b"the next process is ");
    push_process(out, Proc(p));
    push_word(out, b": they are declared in the order of their letters");
}

// Adds the same, if a trace may have one more.
pub(crate) fn push_next(out: &mut ArrayVec<u8, 768>, p: usize)
    requires { array_vec_len out.old ≤ 40 }
    ensures { Adds out.old.items out.new.items (next_process_text p) 240 }
{
    if p < 16 {
        push_next_letter(out, p as u32);
    } else {
        push_word(out, b"a trace has at most 16 processes, A to P");
    }
}

// Adds what the number of a bad frame has to be.
pub(crate) fn push_frame(out: &mut ArrayVec<u8, 768>, n: u32, text: &[u8])
    requires { array_vec_len out.old ≤ 40 }
    ensures { Adds out.old.items out.new.items (frame_text n text.now) 240 }
{
    let frame = line_number(2, text);
    push_has_to_be(
        out,
        b"the frame's number",
        frame,
        b"below FRAMES",
        u64::from(n),
    );
}

// Adds what the quota of a process with this limit has to be.
pub(crate) fn push_quota(out: &mut ArrayVec<u8, 768>, n: u32, text: &[u8])
    requires { array_vec_len out.old ≤ 40 }
    ensures { Adds out.old.items out.new.items (quota_text n text.now) 240 }
{
    let quota = line_number(4, text);
    push_has_to_be(
        out,
        b"the quota",
        quota,
        b"at least the limit",
        u64::from(n),
    );
}

// Adds what the extent of a process with this quota has to be.
pub(crate) fn push_extent(out: &mut ArrayVec<u8, 768>, n: u32, text: &[u8])
    requires { array_vec_len out.old ≤ 40 }
    ensures { Adds out.old.items out.new.items (extent_text n text.now) 240 }
{
    let extent = line_number(5, text);
    push_has_to_be(
        out,
        b"the extent",
        extent,
        b"at least the quota",
        u64::from(n),
    );
}

// Whether the number is there, and below the other.
fn is_below(value: Option<u32>, n: usize) -> bool
    ensures { result ≡ is_below value n }
{
    match value {
        Some(value) => (value as usize) < n,
        None => false,
    }
}

// How many behind so many of so many are left.
fn left_of(value: Option<u32>, n: usize) -> u64
    ensures { result ≡ left_of value n }
{
    match value {
        Some(value) => (n as u64).saturating_sub(u64::from(value)),
        None => n as u64,
    }
}

// Adds how many locks a process with this limit may have, or that the limit is too small.
pub(crate) fn push_locks(out: &mut ArrayVec<u8, 768>, n: u32, text: &[u8])
    requires { array_vec_len out.old ≤ 40 }
    ensures { Adds out.old.items out.new.items (locks_text n text.now) 240 }
{
    if n < 2 {
        push_one(
            out,
            b"the limit is ",
            u64::from(n),
            b", and has to be at least 2",
        );
    } else {
        push_has_to_be(
            out,
            b"the number of locks",
            line_number(6, text),
            b"at most the limit less 2",
            u64::from(n - 2),
        );
    }
}

// Adds where an offset in a section of so many bytes lies, or how many bytes may follow.
pub(crate) fn push_bytes(out: &mut ArrayVec<u8, 768>, n: usize, text: &[u8])
    requires { array_vec_len out.old ≤ 40 }
    ensures { Adds out.old.items out.new.items (bytes_text n text.now) 240 }
{
    let offset = line_number(3, text);
    if is_below(offset, n) {
        push_has_to_be(
            out,
            b"the number of bytes",
            None,
            b"at most what the section has from that offset on",
            left_of(offset, n),
        );
    } else {
        push_has_to_be(
            out,
            b"the offset",
            offset,
            b"below the section's number of bytes",
            n as u64,
        );
    }
}

// Adds where the first page in a section of so many pages lies, or how many pages may follow.
pub(crate) fn push_pages(out: &mut ArrayVec<u8, 768>, n: usize, text: &[u8])
    requires { array_vec_len out.old ≤ 40 }
    ensures { Adds out.old.items out.new.items (pages_text n text.now) 240 }
{
    let first = line_number(6, text);
    if is_below(first, n) {
        push_has_to_be(
            out,
            b"the number of pages",
            line_number(4, text),
            b"at most what the section has from there on",
            left_of(first, n),
        );
    } else {
        push_has_to_be(
            out,
            b"the first page",
            first,
            b"below the section's number of pages",
            n as u64,
        );
    }
}

// How many pages from the address on may be mapped; 0 if it is in neither of the two regions.
fn pages_from(address: Option<u32>) -> u32
    ensures { result ≡ pages_from address }
{
    match address {
        None => 0,
        Some(at) => {
            if at < 2_097_152 {
                (2_097_152 - at) / PAGE_BYTES
            } else if at >= 2_146_959_360 && at < 2_147_483_648 {
                (2_147_483_648 - at) / PAGE_BYTES
            } else {
                0
            }
        }
    }
}

// Adds in which regions the address is, or how many pages from there on may be mapped.
pub(crate) fn push_regions(out: &mut ArrayVec<u8, 768>, text: &[u8])
    requires { array_vec_len out.old ≤ 40 }
    ensures { Adds out.old.items out.new.items (regions_text text.now) 240 }
{
    let room = pages_from(line_address(3, text));
    if room > 0 {
        push_has_to_be(
            out,
            b"the number of pages",
            line_number(4, text),
            b"at most what may be mapped from there on",
            u64::from(room),
        );
    } else {
        push_word(
            out,
            b"the address is from 00000000 to 001FFE00, or from 7FF80000 to 7FFFFE00",
        );
    }
}

// The first of the two numbers if this holds, or the second.
fn either(holds: bool, first: u8, second: u8) -> u8
    ensures { result ≡ (if holds then first else second) }
{
    if holds { first } else { second }
}

// The number of the word that is over the bound: that of the word that breaks the rule, but where another may be
// too great.
pub(crate) fn over_word(word: u8, bound: Bound, text: &[u8]) -> u8
    ensures { result ≡ over_word word bound text.now }
{
    match bound {
        Bound::Locks(n) => either(n < 2, 3, word),
        Bound::Bytes(n) => either(is_below(line_number(3, text), n), 4, word),
        Bound::Pages(n) => either(is_below(line_number(6, text), n), 4, word),
        Bound::Regions => either(pages_from(line_address(3, text)) > 0, 4, word),
        _ => word,
    }
}
