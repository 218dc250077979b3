//! What a word of a line is by its place, and what may stand there.

ghost use Rattle.std.specs.Prelude.{◌≡◌};
ghost use Rattle.command_messages.specs.Texts.{AreWords};
ghost use Rattle.command_messages.specs.WordKinds.{allowed_text, declared_kind, first_text, later_text, map_kind, repeated_text, request_kind, section_kind_text, section_map_kind, undeclared_text, verb_text, word_kind};
ghost use Rattle.trace_lines.specs.Grammar.{is_letter};

use trace_words::is;

// What a word is by its place.
#[derive(Clone, Copy, Debug, PartialEq, Eq)]
pub(crate) enum WordKind {
    // The first of a line that isn't a request.
    First,
    // What a request asks for.
    Verb,
    // A parameter.
    Parameter,
    // A section's name.
    Section,
    // A section's kind.
    SectionKind,
    // A process's letter.
    Process,
    // A protection code.
    Protection,
    // A block.
    Block,
    // Something else.
    Other,
}

// Whether the word is one capital letter.
pub(crate) fn is_letter(word: &[u8]) -> bool
    ensures { result ≡ is_letter word.now }
{
    match word {
        [b'A'..=b'Z'] => true,
        _ => false,
    }
}

// Of a line that maps zeros.
fn map_kind(number: u8) -> WordKind
    ensures { result ≡ map_kind number }
{
    if number == 2 {
        WordKind::Process
    } else {
        WordKind::Protection
    }
}

// Of a line that maps pages of a section.
fn section_map_kind(number: u8) -> WordKind
    ensures { result ≡ section_map_kind number }
{
    if number == 5 {
        WordKind::Section
    } else {
        map_kind(number)
    }
}

// Of a line that declares, by its first word.
fn declared_kind(first: &[u8], number: u8) -> WordKind
    ensures { result ≡ declared_kind first.now number }
{
    if is(first, b"PARAM") {
        WordKind::Parameter
    } else if is(first, b"SECTION") {
        if number == 2 {
            WordKind::Section
        } else {
            WordKind::SectionKind
        }
    } else if is(first, b"DATA") {
        WordKind::Section
    } else if is(first, b"PROCESS") {
        WordKind::Process
    } else if is(first, b"MAPZERO") {
        map_kind(number)
    } else if is(first, b"MAPSEC") {
        section_map_kind(number)
    } else if is(first, b"FAIL") {
        WordKind::Block
    } else {
        WordKind::Other
    }
}

// Of a request.
fn request_kind(number: u8) -> WordKind
    ensures { result ≡ request_kind number }
{
    if number == 1 {
        WordKind::Process
    } else if number == 2 {
        WordKind::Verb
    } else {
        WordKind::Protection
    }
}

// What the word of this number is in a line with this first word.
pub(crate) fn word_kind(first: &[u8], number: u8) -> WordKind
    ensures { result ≡ word_kind first.now number }
{
    if is_letter(first) {
        request_kind(number)
    } else if number == 1 {
        WordKind::First
    } else {
        declared_kind(first, number)
    }
}

const LATER: &[u8] =
    b"version 1 doesn't have this word, and version 2 does: VMTRACE 2 or LONGTRACE 2";

// What may begin a line in the place of this word.
fn allowed_first(word: &[u8]) -> &'static [u8]
    ensures { AreWords result.now (first_text word.now) 200 }
{
    if is(word, b"1") || is(word, b"PFN") {
        b"a log begins so, and stands behind a line LOG, which check alone reads"
    } else {
        b"a line begins with VMTRACE, LONGTRACE, FRAMES, PAGEFILE, PARAM, BAD, SECTION, DATA, PROCESS, MAPZERO, MAPSEC, FAIL, BODY, END, the letter of a process, or !"
    }
}

// What may ask for something in the place of this word.
fn allowed_verb(word: &[u8]) -> &'static [u8]
    ensures { AreWords result.now (verb_text word.now) 200 }
{
    if is(word, b"LCKPAG") || is(word, b"ULKPAG") {
        LATER
    } else {
        b"a request is R1, R2, R4, W1, W2, W4 or A4, with K, E, S, U or nothing before it, or CRETVA, DELTVA, SETPRT, LKWSET, ULWSET, PURGWS, ADJWSL, or in version 2 LCKPAG or ULKPAG"
    }
}

// Which kind of a section may stand in the place of this word.
fn allowed_section_kind(word: &[u8]) -> &'static [u8]
    ensures { AreWords result.now (section_kind_text word.now) 200 }
{
    if is(word, b"PAGED") {
        LATER
    } else {
        b"a section is SHARED or CRF, or in version 2 PAGED"
    }
}

// What may stand in the place of this word.
pub(crate) fn allowed(kind: WordKind, word: &[u8]) -> &'static [u8]
    ensures { AreWords result.now (allowed_text kind word.now) 200 }
{
    match kind {
        WordKind::First => allowed_first(word),
        WordKind::Verb => allowed_verb(word),
        WordKind::Parameter =>
            b"a parameter is PFC, HILIMIT, LOLIMIT, WAITLIMIT, WRTCLUSTER, FREELIM, FREEGOAL, AWSTIME, PFRATH, PFRATL, WSINC, WSDEC, AWSMIN or BORROWLIM",
        WordKind::Section =>
            b"the name of a section has 2 to 15 capital letters, digits and _, a letter first",
        WordKind::SectionKind => allowed_section_kind(word),
        WordKind::Process => b"a process is a capital letter",
        WordKind::Protection =>
            b"a protection is NA, KW, KR, UW, EW, ERKW, ER, SW, SREW, SRKW, SR, URSW, UREW, URKW or UR",
        WordKind::Block =>
            b"a block is S:NAME/n, P:n or X:A/n, with n in digits that don't begin with a zero too many",
        WordKind::Other => b"the word is none of those that may stand in its place",
    }
}

// What an earlier line has to declare.
pub(crate) fn undeclared(kind: WordKind) -> &'static [u8]
    ensures { AreWords result.now (undeclared_text kind) 200 }
{
    match kind {
        WordKind::Section =>
            b"no earlier line SECTION declares a section of this name, with a file if it is for DATA",
        WordKind::Process => b"no earlier line PROCESS declares this process",
        WordKind::Block =>
            b"there is no such block: a page of a section with a file, a block below PAGEFILE, or a process's slot below its extent",
        _ => b"no earlier line declares this",
    }
}

// What an earlier line has declared, by the first word of this one.
pub(crate) fn repeated(first: &[u8]) -> &'static [u8]
    ensures { AreWords result.now (repeated_text first.now) 200 }
{
    if is(first, b"PARAM") {
        b"an earlier line PARAM sets this parameter"
    } else if is(first, b"BAD") {
        b"an earlier line BAD has this frame"
    } else if is(first, b"SECTION") {
        b"an earlier line SECTION has this name"
    } else if is(first, b"MAPZERO") || is(first, b"MAPSEC") {
        b"an earlier line MAPZERO or MAPSEC maps one of these pages"
    } else if is(first, b"FAIL") {
        b"an earlier line FAIL has this block"
    } else {
        b"this was declared before"
    }
}
