ghost use Rattle.std.specs.Prelude.{◌≡◌, ◌≤◌, length, min};
ghost use Rattle.trace_words.specs.Split.{listed};
ghost use Rattle.trace_lines.specs.Breaches.{at_word, bounded, counted, marked, miscounted, ranged};

use trace_words::{Cause, Words, decimal, decimal_within};

/// What a trace has at most so many of.
#[derive(Clone, Copy, Debug, PartialEq, Eq)]
pub enum Limited {
    /// Lines, by the version.
    Lines,
    /// Requests, by the version.
    Requests,
    /// Sections.
    Sections,
    /// Pages of all sections.
    SectionPages,
    /// Processes.
    Processes,
}

/// What may stand in the place of a word that breaks a rule.
#[derive(Clone, Copy, Debug, PartialEq, Eq)]
pub enum Bound {
    /// More than a number says.
    Free,
    /// A number from the first to the second.
    Within(u32, u32),
    /// An address that is a multiple of this.
    Multiple(u32),
    /// The next process, of this number from 0.
    Next(usize),
    /// A frame's number below this, which is the number of frames.
    BelowFrames(u32),
    /// A place in a section of so many bytes, which the line's bytes fit behind.
    Bytes(usize),
    /// A page in a section of so many pages, which the line's pages fit behind.
    Pages(usize),
    /// An address from which the pages lie in those of P0, or in those of P1, that may be mapped.
    Regions,
    /// A number of locks at most this limit, less 2.
    Locks(u32),
    /// A quota of at least this limit.
    Quota(u32),
    /// An extent of at least this quota.
    Extent(u32),
    /// BODY, once LOLIMIT is at most this, which is HILIMIT.
    LoLimit(u32),
    /// BODY, once HILIMIT is at most this, which is WAITLIMIT.
    HiLimit(u32),
    /// BODY, once FREELIM is at most this, which is FREEGOAL.
    FreeLim(u32),
    /// BODY, once the extent of each process, the bad frames and 2 are at most this, which is the number of
    /// frames.
    Frames(u32),
    /// BODY in every version but 1, once the extent of each process, the bad frames, the locks of all processes
    /// and 2 are at most this, which is the number of frames.
    FramesAndLocks(u32),
    /// At most so many of these.
    Most(Limited, u32),
}

/// The first rule that a line breaks, and where.
#[derive(Clone, Copy, Debug, PartialEq, Eq)]
pub struct Breach {
    /// The rule.
    pub cause: Cause,
    /// The number of the word that breaks it, from 1, or the place of a word that is missing; 0 if it is the
    /// line as a whole.
    pub word: u8,
    /// What may stand there.
    pub bound: Bound,
}

impl Breach {
    /// The word of this number breaks the rule, and this may stand in its place.
    pub fn bounded(word: u8, cause: Cause, bound: Bound) -> Breach
        ensures { result ≡ bounded word cause bound }
    {
        Breach { cause, word, bound }
    }

    /// The word of this number breaks the rule.
    pub fn at_word(word: u8, cause: Cause) -> Breach
        ensures { result ≡ at_word word cause }
    {
        Breach {
            cause,
            word,
            bound: Bound::Free,
        }
    }
}

/// What the word of this number says, with this in its place, or that it is wrong.
pub(crate) fn marked<T>(word: u8, bound: Bound, answer: Result<T, Cause>) -> Result<T, Breach>
    ensures { result ≡ marked word bound answer }
{
    match answer {
        Ok(value) => Ok(value),
        Err(cause) => Err(Breach::bounded(word, cause, bound)),
    }
}

/// A decimal number in the range, the word of this number.
pub(crate) fn ranged(word: u8, low: u32, high: u32, text: &[u8]) -> Result<u32, Breach>
    ensures { result ≡ ranged word low high text.now }
{
    let answer = decimal_within(low, high, text);
    marked(word, Bound::Within(low, high), answer)
}

/// A decimal number, the word of this number.
pub(crate) fn counted(word: u8, text: &[u8]) -> Result<u32, Breach>
    ensures { result ≡ counted word text.now }
{
    let answer = decimal(text);
    marked(word, Bound::Within(0, 0xffff_ffff), answer)
}

// How many words there are, of more than six only 7.
fn count(args: &Words) -> u8
    ensures { result ≡ min (length (listed args.now)) 7 }
{
    match args {
        Words::Zero => 0,
        Words::One(..) => 1,
        Words::Two(..) => 2,
        Words::Three(..) => 3,
        Words::Four(..) => 4,
        Words::Five(..) => 5,
        Words::Six(..) => 6,
        Words::More(..) => 7,
    }
}

/// Other than so many words stand from this place on.
pub(crate) fn miscounted(first: u8, wanted: u8, args: &Words) -> Breach
    requires first { first ≤ 3 }
    requires wanted { wanted ≤ 6 }
    ensures { result ≡ miscounted first wanted (listed args.now) }
{
    let count = count(args);
    let right = if count < wanted { count } else { wanted };
    Breach::at_word(first + right, Cause::Misplaced)
}
