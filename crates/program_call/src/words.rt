ghost use Rattle.std.specs.Prelude.{◌≡◌, drop, map, All, IfOk, IfSome, MatchOption};
ghost use Rattle.std.specs.Str.{IsUtf8};

use crate::arguments::Arguments;
use std::alloc::Global;
use std::str;
use vm_types::NoMemory;

/// Copies the words after the program's own name.
///
/// # Errors
/// `NoMemory` if memory ran out.
pub(crate) fn copied_words<A: Arguments>(
    alloc: Global,
    arguments: &mut A,
) -> Result<Vec<Vec<u8>>, NoMemory>
    ensures { IfOk result (λ words. IfSome (A.left arguments.old) (λ all. map (λ word. word.items) words.items ≡ drop 1 all)) }
{
    let mut words = Vec::new(alloc);
    arguments.skip_word();
    for _ in 0..u64::MAX {
        match arguments.next_word(alloc)? {
            Some(word) => words.push(word)?,
            None => return Ok(words),
        }
    }
    Err(NoMemory)
}

/// The words as texts; `None` if one of them isn't UTF-8.
///
/// # Errors
/// `NoMemory` if memory ran out.
pub(crate) fn texts_of<'a>(
    alloc: Global,
    words: &'a [Vec<u8>],
) -> Result<Option<Vec<&'a str>>, NoMemory>
    ensures { IfOk result (λ texts. MatchOption texts (All IsUtf8 (map (λ word. word.items) words.now) → ⊥)
        (λ texts. (map (λ text. text.now) texts.items ≡ map (λ word. word.items) words.now) × All IsUtf8 (map (λ word. word.items) words.now))) }
{
    let mut texts = Vec::new(alloc);
    for word in words {
        match str::from_utf8(word.as_slice()) {
            Ok(text) => texts.push(text)?,
            Err(_) => return Ok(None),
        }
    }
    Ok(Some(texts))
}
