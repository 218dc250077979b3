ghost use Rattle.std.specs.Prelude.{◌≡◌, nat_le};
ghost use Rattle.std.specs.List.{list_all};
ghost use Rattle.trace_words.specs.Words.{words};
ghost use Rattle.trace_lines.specs.Grammar.{by_keyword, is_letter, is_comment, by_first, by_words, content, is_text, judged};
ghost use Rattle.trace_lines.specs.Says.{said, meant};
ghost use Rattle.trace_lines.specs.Seen.{IsSeen, HasKeyLimits};

use crate::breach::{Bound, Breach, Limited};
use crate::declarations::{data, process, section};
use crate::fails::fail;
use crate::headers::{bad, frames, long, pagefile, param, version};
use crate::keywords::{Keyword, keyword_of};
use crate::line::Line;
use crate::mappings::{mapsec, mapzero};
use crate::part::Part;
use crate::places::Place;
use crate::requests::{body, end, request};
use crate::seen::Seen;
use trace_words::{Cause, next_word, words_of};

// A line of this keyword, by the text behind it.
fn by_keyword<'a>(
    part: &Part,
    seen: &Seen,
    keyword: Keyword,
    text: &'a [u8],
) -> Result<Line<'a>, Breach>
    requires seen { IsSeen seen.now part.now.config }
    requires bounded { HasKeyLimits part.now.config }
    ensures { said result ≡ by_keyword part.now (words text.now) keyword }
{
    let config = &part.config;
    let args = words_of(text);
    match keyword {
        Keyword::Version => version(&args),
        Keyword::Long => long(&args),
        Keyword::Frames => frames(config, &args),
        Keyword::PageFile => pagefile(&args),
        Keyword::Param => param(&part.given, &args),
        Keyword::Bad => bad(config, seen, &args),
        Keyword::Section => section(config, &args),
        Keyword::Data => data(config, &args),
        Keyword::Process => process(config, &args),
        Keyword::MapZero => mapzero(config, seen, &args),
        Keyword::MapSection => mapsec(config, seen, &args),
        Keyword::Fail => fail(config, seen, text),
        Keyword::Body => body(config, &args),
        Keyword::End => end(&args),
    }
}

fn is_letter(word: &[u8]) -> bool
    ensures { result ≡ is_letter word.now }
{
    word.len() == 1 && word[0] >= b'A' && word[0] <= b'Z'
}

fn is_comment(word: &[u8]) -> bool
    ensures { result ≡ is_comment word.now }
{
    !word.is_empty() && word[0] == b'!'
}

// A line of this first word, by the text behind it.
fn by_first<'a>(part: &Part, seen: &Seen, first: &[u8], text: &'a [u8]) -> Result<Line<'a>, Breach>
    requires seen { IsSeen seen.now part.now.config }
    requires bounded { HasKeyLimits part.now.config }
    ensures { said result ≡ by_first part.now first.now (words text.now) }
{
    if is_comment(first) {
        return Ok(Line::Nothing);
    }
    if is_letter(first) {
        if part.place.rank() != Place::Requests.rank() {
            return Err(Breach::at_word(1, Cause::Misplaced));
        }
        return request(&part.config, first, text);
    }
    let Some(keyword) = keyword_of(part.place, first) else {
        return Err(Breach::at_word(1, Cause::UnknownWord));
    };
    if part.place.rank() != keyword.place().rank() {
        return Err(Breach::at_word(1, Cause::Misplaced));
    }
    by_keyword(part, seen, keyword, text)
}

/// The line without a byte 13 at its end. Doesn't allocate.
pub fn content(line: &[u8]) -> &[u8]
    ensures { result.now ≡ content line.now }
{
    let count = line.len();
    if count > 0 && line[count - 1] == b'\r' {
        line.split_at(count - 1).0
    } else {
        line
    }
}

fn is_text(byte: u8) -> bool
    ensures { result ≡ is_text byte }
{
    byte == b'\t' || (byte >= b' ' && byte <= b'~')
}

fn are_text(line: &[u8]) -> bool
    ensures { result ≡ list_all is_text line.now }
{
    line.iter().all(|b| is_text(*b))
}

/// What the line of this number says, after these declarations. Doesn't allocate.
///
/// # Errors
/// The first rule that the line breaks, and the word that breaks it.
pub fn judge<'a>(number: u32, part: &Part, seen: &Seen, line: &'a [u8]) -> Result<Line<'a>, Breach>
    requires seen { IsSeen seen.now part.now.config }
    requires bounded { HasKeyLimits part.now.config }
    ensures { said result ≡ judged number part.now line.now }
{
    if line.len() > 255 {
        return Err(Breach::at_word(0, Cause::LineTooLong));
    }
    let line = content(line);
    if !are_text(line) {
        return Err(Breach::at_word(0, Cause::NotAscii));
    }
    let most = part.config.version.most_lines();
    if number > most {
        let bound = Bound::Most(Limited::Lines, most);
        return Err(Breach::bounded(0, Cause::TooMany, bound));
    }
    match next_word(line) {
        None => Ok(Line::Nothing),
        Some((first, rest)) => by_first(part, seen, first, rest),
    }
}
