ghost use Rattle.std.specs.Prelude.{◌≡◌, ◌≤◌, ◌&&◌, nat_le, length, false, IfOk};
ghost use Rattle.std.specs.List.{list_any};
ghost use Rattle.vm_types.specs.declared.limits.TheConstants.{MOST_FAILS};
ghost use Rattle.trace_words.specs.BlockWords.{name_of};
ghost use Rattle.trace_words.specs.Words.{words};
ghost use Rattle.trace_lines.specs.Breaches.{miscounted};
ghost use Rattle.trace_lines.specs.Fails.{is_same, slots_at, block_named, block_of, call_numbers, kept, fail_line};
ghost use Rattle.trace_lines.specs.Says.{said};
ghost use Rattle.trace_lines.specs.Seen.{IsSeen, HasKeyLimits, IsKeyed};

use crate::breach::{Bound, Breach, marked, ranged};
use crate::line::Line;
use crate::lookups::{blocks_at, number_named};
use crate::seen::{Seen, block_key};
use arrayvec::ArrayVec;
use trace_words::{BlockName, Cause, block_name, next_word};
use vm_types::{BlockId, Config, Proc, ProcSpec, SecId};

// The swap blocks of the process of this number.
fn slots_at(procs: &[ProcSpec], p: u32) -> u32
    ensures { result ≡ slots_at procs.now p }
{
    match procs.get(p as usize) {
        Some(spec) => spec.extent,
        None => 0,
    }
}

// The block of this name, if it is there.
fn block_named(config: &Config, name: &BlockName) -> Result<BlockId, Cause>
    requires { HasKeyLimits config.now }
    ensures value { result ≡ block_named config.now (name_of name.now) }
    ensures keyed { IfOk result IsKeyed }
{
    match *name {
        BlockName::Section(name, page) => {
            let sections = config.sections.items();
            let Some(s) = number_named(sections, name) else {
                return Err(Cause::NoSuch);
            };
            if (page as usize) < blocks_at(sections, s) {
                Ok(BlockId::Section(SecId(s as u32), page))
            } else {
                Err(Cause::NoSuch)
            }
        }
        BlockName::PageFile(b) => {
            if b < config.pagefile {
                Ok(BlockId::PageFile(b))
            } else {
                Err(Cause::NoSuch)
            }
        }
        BlockName::Swap(p, slot) => {
            if slot < slots_at(config.procs.items(), p) {
                Ok(BlockId::Swap(Proc(p), slot))
            } else {
                Err(Cause::NoSuch)
            }
        }
    }
}

// Whether the text has a word, and no more than calls may fail.
fn has_calls(text: &[u8]) -> bool
    ensures { result ≡ (nat_le 1 (length (words text.now)) && nat_le (length (words text.now)) MOST_FAILS) }
{
    let mut count = 0u8;
    let mut rest = text;
    while let Some((_, after)) = next_word(rest) {
        if count >= 16 {
            return false;
        }
        count += 1;
        rest = after;
    }
    count >= 1
}

// The numbers that the words of the text spell, which stand from the third word on.
fn call_numbers(text: &[u8]) -> Result<ArrayVec<u32, 16>, Breach>
    requires { length (words text.now) ≤ 16 }
    ensures { kept result ≡ call_numbers 3 (words text.now) }
{
    let mut calls = ArrayVec::new();
    let mut rest = text;
    while let Some((word, after)) = next_word(rest) {
        let n = ranged(3 + calls.len() as u8, 1, 0xffff_ffff, word)?;
        calls.push(n);
        rest = after;
    }
    Ok(calls)
}

// Whether the block was named before.
fn is_repeated(config: &Config, seen: &Seen, id: BlockId) -> bool
    requires seen { IsSeen seen.now config.now }
    requires bounded { HasKeyLimits config.now }
    requires keyed { IsKeyed id }
    ensures { result ≡ list_any (λ fails. is_same fails.block id) config.now.fails }
{
    seen.blocks.contains(&block_key(id))
}

// The block that the word names, if it is there.
fn block_of(config: &Config, word: &[u8]) -> Result<BlockId, Cause>
    requires { HasKeyLimits config.now }
    ensures value { result ≡ block_of config.now word.now }
    ensures keyed { IfOk result IsKeyed }
{
    let name = block_name(word)?;
    block_named(config, &name)
}

// Other than 1 to 16 words stand from the third place on.
fn misplaced(text: &[u8]) -> Breach
    requires { (nat_le 1 (length (words text.now)) && nat_le (length (words text.now)) MOST_FAILS) ≡ false }
    ensures { result ≡ miscounted 3 MOST_FAILS (words text.now) }
{
    match next_word(text) {
        None => Breach::at_word(3, Cause::Misplaced),
        Some(_) => Breach::at_word(19, Cause::Misplaced),
    }
}

pub(crate) fn fail<'a>(config: &Config, seen: &Seen, text: &[u8]) -> Result<Line<'a>, Breach>
    requires seen { IsSeen seen.now config.now }
    requires bounded { HasKeyLimits config.now }
    ensures { said result ≡ fail_line config.now (words text.now) }
{
    let Some((name, rest)) = next_word(text) else {
        return Err(Breach::at_word(2, Cause::Misplaced));
    };
    if !has_calls(rest) {
        return Err(misplaced(rest));
    }
    let id = marked(2, Bound::Free, block_of(config, name))?;
    let calls = call_numbers(rest)?;
    if is_repeated(config, seen, id) {
        return Err(Breach::at_word(2, Cause::Repeated));
    }
    Ok(Line::Fail(id, calls))
}
