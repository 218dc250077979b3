//! The words with what would have been right in its place.

ghost use Rattle.std.specs.Prelude.{◌≡◌, ◌+◌, ◌≤◌, ◌++◌, decimal, length};
ghost use Rattle.arrayvec.specs.ArrayVec.{array_vec_len};
ghost use Rattle.command_messages.specs.Texts.{Adds};
ghost use Rattle.command_messages.specs.ReasonText.{block_text, page_text, reason_text, right_text, shared_text};

use crate::right::Right;
use crate::words::{right_of, seat_words};
use arrayvec::ArrayVec;
use log_reasons::Reason;
use vm_text::{
    cut, push_address, push_count, push_decimal, push_frame, push_place, push_process, push_state,
    push_status, push_why, push_word,
};
use vm_types::{Addr, BlockId, PAGE_BYTES, Page, Pfn, SecId};

// Adds a page of a section by the section's number, behind a mark.
fn push_shared(out: &mut ArrayVec<u8, 64>, mark: &[u8], s: SecId, page: u32)
    requires room { array_vec_len out.old ≤ 8 }
    requires short { length mark.now ≤ 2 }
    ensures { Adds out.old.items out.new.items (mark.now ++ shared_text s.0 page) 24 }
{
    push_word(out, mark);
    push_word(out, b"#");
    push_count(out, s.0);
    push_word(out, b"/");
    push_count(out, page);
}

// Adds a page.
fn push_page(out: &mut ArrayVec<u8, 64>, page: Page)
    requires { array_vec_len out.old ≤ 8 }
    ensures { Adds out.old.items out.new.items (page_text page) 24 }
{
    match page {
        Page::Private(p, v) => {
            if p.0 < 16 && v < 0x80_0000 {
                push_place(out, p, Addr(PAGE_BYTES * v));
            } else {
                push_word(out, b"none");
            }
        }
        Page::Shared(s, i) => push_shared(out, b"", s, i),
    }
}

// Adds a block.
fn push_block(out: &mut ArrayVec<u8, 64>, block: BlockId)
    requires { array_vec_len out.old ≤ 8 }
    ensures { Adds out.old.items out.new.items (block_text block) 24 }
{
    match block {
        BlockId::Section(s, i) => push_shared(out, b"S:", s, i),
        BlockId::PageFile(b) => {
            push_word(out, b"P:");
            push_count(out, b);
        }
        BlockId::Swap(p, n) => {
            if p.0 < 16 {
                push_word(out, b"X:");
                push_process(out, p);
                push_word(out, b"/");
                push_count(out, n);
            } else {
                push_word(out, b"none");
            }
        }
    }
}

// Adds two numbers, with a word between them.
fn push_both(out: &mut ArrayVec<u8, 64>, n: u64, word: &[u8], m: u64)
    requires room { array_vec_len out.old ≤ 8 }
    requires short { length word.now ≤ 4 }
    ensures { Adds out.old.items out.new.items (decimal n ++ word.now ++ decimal m) 44 }
{
    push_decimal(out, n);
    push_word(out, word);
    push_decimal(out, m);
}

// Adds what would have been right.
fn push_right(out: &mut ArrayVec<u8, 64>, right: Right)
    requires { array_vec_len out.old ≤ 8 }
    ensures { Adds out.old.items out.new.items (right_text right) 44 }
{
    match right {
        Right::Nothing => {}
        Right::Number(n) => push_decimal(out, n),
        Right::Of(n, m) => push_both(out, n, b" of ", m),
        Right::Range(n, m) => push_both(out, n, b" to ", m),
        Right::Frame(Some(frame)) => push_frame(out, Pfn(frame)),
        Right::Slot(Some(slot)) => push_count(out, slot),
        Right::Page(Some(page)) => push_page(out, page),
        Right::Block(Some(block)) => push_block(out, block),
        Right::Refusal(Some(why)) => push_why(out, why),
        Right::State(state) => push_state(out, state),
        Right::Status(status) => push_status(out, status),
        Right::Address(at) => push_address(out, at),
        Right::Frame(None)
        | Right::Slot(None)
        | Right::Page(None)
        | Right::Block(None)
        | Right::Refusal(None) => push_word(out, b"none"),
    }
}

// What would have been right, as a text.
fn right_text(right: Right) -> ArrayVec<u8, 64>
    ensures items { result.items ≡ right_text right }
    ensures len { array_vec_len result ≤ 44 }
{
    let mut out = ArrayVec::new();
    push_right(&mut out, right);
    out
}

// Adds the words of a condition that doesn't hold, with what would have been right.
pub(crate) fn push_reason<const CAP: usize>(out: &mut ArrayVec<u8, CAP>, reason: Reason)
    requires { array_vec_len out.old + 124 ≤ CAP }
    ensures { Adds out.old.items out.new.items (reason_text reason) 124 }
{
    let words = seat_words(reason);
    let right = right_text(right_of(reason));
    match cut(words, b'%') {
        None => push_word(out, words),
        Some((front, back)) => {
            push_word(out, front);
            push_word(out, right.as_slice());
            push_word(out, back);
        }
    }
}
