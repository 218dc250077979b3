ghost use Rattle.std.specs.Prelude.{◌≡◌};
ghost use Rattle.std.specs.List.{list_all};
ghost use Rattle.trace_words.specs.BlockWords.{is_digit, is_plain, plain_number, named, section_block_name, page_file_block_name, swap_block_name, block_name};

use crate::cause::Cause;
use crate::letters::letter;
use crate::names::is_name;
use crate::numbers::decimal;
use crate::split::{cut, is};

/// A block by its name in a trace.
#[derive(Clone, Copy, Debug)]
pub enum BlockName<'a> {
    /// A section's block: the section's name and the page.
    Section(&'a [u8], u32),
    /// A block of the page file.
    PageFile(u32),
    /// A swap block: the process and the slot.
    Swap(u32, u32),
}

fn are_digits(word: &[u8]) -> bool
    ensures { result ≡ list_all is_digit word.now }
{
    word.iter().all(|b| *b >= b'0' && *b <= b'9')
}

// Whether all bytes are digits, of which there is one at least and none is a leading zero.
fn is_plain(word: &[u8]) -> bool
    ensures { result ≡ is_plain word.now }
{
    if word.is_empty() || (word.len() > 1 && word[0] == b'0') {
        return false;
    }
    are_digits(word)
}

// The number of a block: decimal without leading zeros.
fn plain_number(word: &[u8]) -> Result<u32, Cause>
    ensures { result ≡ plain_number word.now }
{
    if !is_plain(word) {
        return Err(Cause::UnknownWord);
    }
    match decimal(word) {
        Ok(n) => Ok(n),
        Err(_) => Err(Cause::NoSuch),
    }
}

fn section_block_name(rest: &[u8]) -> Result<BlockName<'_>, Cause>
    ensures { named result ≡ section_block_name rest.now }
{
    let Some((name, page)) = cut(rest, b'/') else {
        return Err(Cause::UnknownWord);
    };
    if !is_name(name) {
        return Err(Cause::UnknownWord);
    }
    let page = plain_number(page)?;
    Ok(BlockName::Section(name, page))
}

fn swap_block_name(rest: &[u8]) -> Result<BlockName<'_>, Cause>
    ensures { named result ≡ swap_block_name rest.now }
{
    let Some((name, slot)) = cut(rest, b'/') else {
        return Err(Cause::UnknownWord);
    };
    let proc = letter(name)?;
    let slot = plain_number(slot)?;
    Ok(BlockName::Swap(proc, slot))
}

fn page_file_block_name(rest: &[u8]) -> Result<BlockName<'_>, Cause>
    ensures { named result ≡ page_file_block_name rest.now }
{
    let block = plain_number(rest)?;
    Ok(BlockName::PageFile(block))
}

/// The block of this name: `S:LIB/3`, `P:7` or `X:A/2`, its number without leading zeros.
///
/// # Errors
/// `UnknownWord` if it is no such name, `NoSuch` if its number is too great for any block.
pub fn block_name(word: &[u8]) -> Result<BlockName<'_>, Cause>
    ensures { named result ≡ block_name word.now }
{
    let Some((kind, rest)) = cut(word, b':') else {
        return Err(Cause::UnknownWord);
    };
    if is(kind, b"S") {
        section_block_name(rest)
    } else if is(kind, b"P") {
        page_file_block_name(rest)
    } else if is(kind, b"X") {
        swap_block_name(rest)
    } else {
        Err(Cause::UnknownWord)
    }
}
