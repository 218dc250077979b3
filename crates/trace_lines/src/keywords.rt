ghost use Rattle.std.specs.Prelude.{◌≡◌};
ghost use Rattle.trace_lines.specs.Keywords.{keyword_of, long_at, place_of};

use crate::places::Place;
use trace_words::is;

/// The first word of a line that isn't a request.
#[derive(Clone, Copy, Debug, PartialEq, Eq)]
pub enum Keyword {
    /// VMTRACE.
    Version,
    /// LONGTRACE, in a trace's first line alone.
    Long,
    /// FRAMES.
    Frames,
    /// PAGEFILE.
    PageFile,
    /// PARAM.
    Param,
    /// BAD.
    Bad,
    /// SECTION.
    Section,
    /// DATA.
    Data,
    /// PROCESS.
    Process,
    /// MAPZERO.
    MapZero,
    /// MAPSEC.
    MapSection,
    /// FAIL.
    Fail,
    /// BODY.
    Body,
    /// END.
    End,
}

// LONGTRACE is a keyword of a trace's first line alone.
fn long_at(at: Place) -> Option<Keyword>
    ensures { result ≡ long_at at }
{
    if at.rank() == Place::Version.rank() {
        Some(Keyword::Long)
    } else {
        None
    }
}

/// The keyword that the word is at this place.
pub(crate) fn keyword_of(at: Place, word: &[u8]) -> Option<Keyword>
    ensures { result ≡ keyword_of at word.now }
{
    if is(word, b"VMTRACE") {
        Some(Keyword::Version)
    } else if is(word, b"LONGTRACE") {
        long_at(at)
    } else if is(word, b"FRAMES") {
        Some(Keyword::Frames)
    } else if is(word, b"PAGEFILE") {
        Some(Keyword::PageFile)
    } else if is(word, b"PARAM") {
        Some(Keyword::Param)
    } else if is(word, b"BAD") {
        Some(Keyword::Bad)
    } else if is(word, b"SECTION") {
        Some(Keyword::Section)
    } else if is(word, b"DATA") {
        Some(Keyword::Data)
    } else if is(word, b"PROCESS") {
        Some(Keyword::Process)
    } else if is(word, b"MAPZERO") {
        Some(Keyword::MapZero)
    } else if is(word, b"MAPSEC") {
        Some(Keyword::MapSection)
    } else if is(word, b"FAIL") {
        Some(Keyword::Fail)
    } else if is(word, b"BODY") {
        Some(Keyword::Body)
    } else if is(word, b"END") {
        Some(Keyword::End)
    } else {
        None
    }
}

impl Keyword {
    /// Where such a line stands.
    pub(crate) fn place(self) -> Place
        ensures { result ≡ place_of self }
    {
        match self {
            Keyword::Version | Keyword::Long => Place::Version,
            Keyword::Frames => Place::Frames,
            Keyword::PageFile => Place::PageFile,
            Keyword::End => Place::Requests,
            _ => Place::Declarations,
        }
    }
}
