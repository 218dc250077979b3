ghost use Rattle.std.specs.Prelude.{◌≡◌, ◌<◌, ◌∷◌, length, map, IfOk};
ghost use Rattle.neqysbar_c.specs.Words.{IsCommandLine, words_of};

use memchr::memchr;
use std::alloc::Global;
use std::str;
use vm_types::NoMemory;

/// The first word of a text that isn't empty, and what stands behind the zero byte that ends it.
/// Doesn't allocate.
fn first_word(text: &[u8]) -> (&[u8], &[u8])
    requires { 0 < length text.now }
    ensures words { words_of text.now ≡ result.0.now ∷ words_of result.1.now }
    ensures shorter { length result.1.now < length text.now }
{
    match memchr(0, text) {
        Some(end) => (&text[..end], &text[end + 1..]),
        None => (text, &[]),
    }
}

/// The words of the text; none if one of them isn't UTF-8.
///
/// # Errors
/// `NoMemory` if memory ran out.
pub(crate) fn words_in<'a>(alloc: Global, text: &'a [u8]) -> Result<Vec<&'a str>, NoMemory>
    ensures { IfOk result (λ words. IsCommandLine text.now (map (λ word. word.now) words.items)) }
{
    let mut words = Vec::new(alloc);
    let mut left = text;
    for _ in 0..text.len() {
        if left.is_empty() {
            return Ok(words);
        }
        let (word, rest) = first_word(left);
        match str::from_utf8(word) {
            Ok(word) => words.push(word)?,
            Err(_) => return Ok(Vec::new(alloc)),
        }
        left = rest;
    }
    Ok(words)
}
