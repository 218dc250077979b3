//! Finds what is wrong with a command line.

ghost use Rattle.std.specs.Prelude.{◌≡◌, ◌<◌, ◌∷◌, [], ℕ, List, IfSome, IfNone, MatchOption, false, get_or, is_some, length, map, true};
ghost use Rattle.command_messages.specs.LineFaults.{HasInside, HoldsOfWords, IsBadAt, IsMissing, IsOptionWord, Quotes, command_with, command_word, takes};
ghost use Rattle.command_messages.specs.declared.faults.CommandName.{CommandName};
ghost use Rattle.command_options.specs.Numbers.{if_right};
ghost use Rattle.study_command.specs.CommandLine.{process_named};
ghost use Rattle.trace_words.specs.Number.{decimal_within};
ghost use Rattle.command_messages.specs.declared.faults.LineFault.{LineFault};

use crate::faults::{CommandName, LineFault, LineOption};
use crate::options::words_of;
use arrayvec::ArrayVec;
use command_options::first_word;
use outside_io::keep_front;
use trace_words::decimal_within;
use vm_text::{after, is};
use vm_types::{MOST_PROCESSES, MOST_REQUESTS, MOST_STUDY_FRAMES};

// Whether it is a letter, A to P.
fn is_process(value: &[u8]) -> bool
    ensures { result ≡ is_some (process_named value.now) }
{
    match value {
        [byte] => match *byte {
            b'A'..=b'P' => true,
            _ => false,
        },
        _ => false,
    }
}

// Whether it is a number in the range.
fn is_number(low: u32, high: u32, value: &[u8]) -> bool
    ensures { result ≡ is_some (if_right (decimal_within low high value.now)) }
{
    match decimal_within(low, high, value) {
        Ok(_) => true,
        Err(_) => false,
    }
}

// Whether the option may have the value.
fn takes(option: LineOption, value: &[u8]) -> bool
    ensures { result ≡ takes option value.now }
{
    match option {
        LineOption::Process => is_process(value),
        LineOption::Frames => is_number(1, MOST_STUDY_FRAMES, value),
        LineOption::Seed => is_number(0, 4_294_967_295, value),
        LineOption::Procs => is_number(1, MOST_PROCESSES, value),
        LineOption::Refs => is_number(1, MOST_REQUESTS, value),
    }
}

// The value in a word of the option behind =.
fn inside<'a>(option: LineOption, word: &'a [u8]) -> Option<&'a [u8]>
    ensures { MatchOption result ((value : List ℕ) → HasInside option word.now value → ⊥) (λ value. HasInside option word.now value.now) }
{
    match after(word, words_of(option).name) {
        Some([b'=', value @ ..]) => Some(value),
        _ => None,
    }
}

// Whether the word is one of the option.
fn is_option_word(option: LineOption, word: &[u8]) -> bool
    ensures yes { result ≡ true → IsOptionWord option word.now }
    ensures no { result ≡ false → IsOptionWord option word.now → ⊥ }
{
    match inside(option, word) {
        Some(_) => true,
        None => is(word, words_of(option).name),
    }
}

// The word at the place; none behind the last one.
fn word_at<'a>(words: &[&'a str], place: usize) -> &'a [u8]
    ensures { result.now ≡ get_or (map (λ word. word.now) words.now) place [] }
{
    match words.get(place) {
        Some(word) => word.as_bytes(),
        None => b"",
    }
}

// The place of the first word that is the option's.
fn place_of(option: LineOption, words: &[&str]) -> Option<usize>
    ensures some { IfSome result (λ place. place < length words.now) }
    ensures none { IfNone result (IsMissing option (map (λ word. word.now) words.now)) }
{
    for place in 0..words.len() {
        if is_option_word(option, word_at(words, place)) {
            return Some(place);
        }
    }
    None
}

// Whether the word at the place is the option's, with a value that it may not have.
fn is_bad_at(option: LineOption, words: &[&str], place: usize) -> bool
    requires { place < length words.now }
    ensures { result ≡ true → IsBadAt option (map (λ word. word.now) words.now) place }
{
    let word = word_at(words, place);
    match inside(option, word) {
        Some(value) => !takes(option, value),
        None => is(word, words_of(option).name) && !takes(option, word_at(words, place + 1)),
    }
}

// What is wrong with an option of the words behind its command.
fn option_fault(option: LineOption, words: &[&str]) -> Option<LineFault>
    ensures { IfSome result (HoldsOfWords (command_word (command_with option) ∷ map (λ word. word.now) words.now)) }
{
    match place_of(option, words) {
        None => Some(LineFault::Missing(option)),
        Some(place) => {
            if is_bad_at(option, words, place) {
                Some(LineFault::BadValue(option))
            } else {
                None
            }
        }
    }
}

// What is wrong with the words behind `study`.
fn study_fault(words: &[&str]) -> LineFault
    ensures { HoldsOfWords (command_word CommandName.Study ∷ map (λ word. word.now) words.now) result }
{
    if let Some(fault) = option_fault(LineOption::Process, words) {
        return fault;
    }
    match option_fault(LineOption::Frames, words) {
        Some(fault) => fault,
        None => LineFault::Other(CommandName::Study),
    }
}

// What is wrong with the words behind `make`.
fn make_fault(words: &[&str]) -> LineFault
    ensures { HoldsOfWords (command_word CommandName.Make ∷ map (λ word. word.now) words.now) result }
{
    if let Some(fault) = option_fault(LineOption::Seed, words) {
        return fault;
    }
    if let Some(fault) = option_fault(LineOption::Procs, words) {
        return fault;
    }
    match option_fault(LineOption::Refs, words) {
        Some(fault) => fault,
        None => LineFault::Other(CommandName::Make),
    }
}

/// What is wrong with a command line for which there is no command: that it has no word, or a first one that
/// is no command; that an option of the command is missing, or has no value that it may have; else that it
/// isn't what the command takes. What is answered holds of the words; that the line is a faulty one, only the
/// caller knows. Doesn't allocate.
pub fn line_fault(words: &[&str]) -> LineFault
    ensures { HoldsOfWords (map (λ word. word.now) words.now) result }
{
    let Some((first, rest)) = first_word(words) else {
        return LineFault::NoCommand;
    };
    if is(first, b"serial") {
        LineFault::Other(CommandName::Serial)
    } else if is(first, b"replay") {
        LineFault::Other(CommandName::Replay)
    } else if is(first, b"check") {
        LineFault::Other(CommandName::Check)
    } else if is(first, b"dump") {
        LineFault::Other(CommandName::Dump)
    } else if is(first, b"show") {
        LineFault::Other(CommandName::Show)
    } else if is(first, b"study") {
        study_fault(rest)
    } else if is(first, b"make") {
        make_fault(rest)
    } else {
        LineFault::NoSuchCommand
    }
}

/// As `line_fault`, and keeps of the words what the message quotes: the first 80 bytes of the first word. Doesn't
/// allocate.
pub fn quoted_fault(words: &[&str], kept: &mut ArrayVec<u8, 80>) -> LineFault
    ensures holds { HoldsOfWords (map (λ word. word.now) words.now) result }
    ensures quotes { Quotes (map (λ word. word.now) words.now) result kept.new.items }
{
    keep_front(kept, word_at(words, 0));
    line_fault(words)
}
