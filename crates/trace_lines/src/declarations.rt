ghost use Rattle.std.specs.Prelude.{◌≡◌, ◌≤◌, sum_by};
ghost use Rattle.vm_types.specs.declared.limits.TheConstants.{MOST_SECTION_PAGES};
ghost use Rattle.vm_types.specs.Configuration.{section_pages};
ghost use Rattle.trace_words.specs.Split.{listed};
ghost use Rattle.trace_lines.specs.Declarations.{paged_kind, section_kind, has_room, crowded, section_line, data_line, are_ordered, disordered, process_line};
ghost use Rattle.trace_lines.specs.Says.{said};

use crate::breach::{Bound, Breach, Limited, counted, marked, miscounted, ranged};
use crate::line::Line;
use crate::lookups::{bytes_at, has_file, number_named, section as section_of, total_pages};
use trace_words::{Cause, Words, decimal, is, is_name, letter, pairs};
use vm_types::{
    Config, MOST_EXTENT, MOST_PROCESSES, MOST_SECTION_PAGES, MOST_SECTIONS, ProcSpec, Section,
    SectionKind, Version,
};

// The kind of a section in the page file, which version 1 doesn't have.
fn paged_kind(version: Version) -> Result<SectionKind, Cause>
    ensures { result ≡ paged_kind version }
{
    if version.is_first() {
        Err(Cause::UnknownWord)
    } else {
        Ok(SectionKind::Paged)
    }
}

fn section_kind(version: Version, word: &[u8]) -> Result<SectionKind, Cause>
    ensures { result ≡ section_kind version word.now }
{
    if is(word, b"SHARED") {
        Ok(SectionKind::Shared)
    } else if is(word, b"CRF") {
        Ok(SectionKind::Crf)
    } else if is(word, b"PAGED") {
        paged_kind(version)
    } else {
        Err(Cause::UnknownWord)
    }
}

fn has_room(sections: &[Section], pages: u32) -> bool
    requires { sum_by section_pages sections.now ≤ MOST_SECTION_PAGES }
    ensures { result ≡ has_room sections.now pages }
{
    sections.len() < MOST_SECTIONS as usize
        && total_pages(sections) + pages as usize <= MOST_SECTION_PAGES as usize
}

// Which gets too many, the sections or their pages, where one of them does.
fn crowded(sections: &[Section]) -> Bound
    ensures { result ≡ crowded sections.now }
{
    if sections.len() < MOST_SECTIONS as usize {
        Bound::Most(Limited::SectionPages, MOST_SECTION_PAGES)
    } else {
        Bound::Most(Limited::Sections, MOST_SECTIONS)
    }
}

pub(crate) fn section<'a>(config: &Config, args: &Words<'a>) -> Result<Line<'a>, Breach>
    requires { sum_by section_pages config.now.sections ≤ MOST_SECTION_PAGES }
    ensures { said result ≡ section_line config.now (listed args.now) }
{
    let Words::Three(name, kind, n) = *args else {
        return Err(miscounted(2, 3, args));
    };
    if !is_name(name) {
        return Err(Breach::at_word(2, Cause::UnknownWord));
    }
    let kind = marked(3, Bound::Free, section_kind(config.version, kind))?;
    let pages = ranged(4, 1, 0xffff_ffff, n)?;
    let sections = config.sections.items();
    if number_named(sections, name).is_some() {
        return Err(Breach::at_word(2, Cause::Repeated));
    }
    if !has_room(sections, pages) {
        return Err(Breach::bounded(4, Cause::TooMany, crowded(sections)));
    }
    Ok(Line::Section(name, kind, pages))
}

pub(crate) fn data<'a>(config: &Config, args: &Words<'a>) -> Result<Line<'a>, Breach>
    ensures { said result ≡ data_line config.now (listed args.now) }
{
    let Words::Three(name, offset, hex) = *args else {
        return Err(miscounted(2, 3, args));
    };
    let sections = config.sections.items();
    let s = marked(2, Bound::Free, section_of(sections, name))?;
    if !has_file(sections, s) {
        return Err(Breach::at_word(2, Cause::NoSuch));
    }
    let room = bytes_at(sections, s);
    let at = marked(3, Bound::Bytes(room), decimal(offset))?;
    let bytes = marked(4, Bound::Free, pairs(hex))?;
    if at as usize + bytes.len() > room {
        return Err(Breach::bounded(3, Cause::OutOfRange, Bound::Bytes(room)));
    }
    Ok(Line::Data(s, at, bytes))
}

fn are_ordered(spec: &ProcSpec) -> bool
    ensures { result ≡ are_ordered spec.now }
{
    u64::from(spec.locks) + 2 <= u64::from(spec.limit)
        && spec.limit <= spec.quota
        && spec.quota <= spec.extent
}

// The first bound between the numbers of a process that one of them breaks.
fn disordered(spec: &ProcSpec) -> Breach
    ensures { result ≡ disordered spec.now }
{
    if u64::from(spec.limit) < u64::from(spec.locks) + 2 {
        Breach::bounded(6, Cause::OutOfRange, Bound::Locks(spec.limit))
    } else if spec.quota < spec.limit {
        Breach::bounded(4, Cause::OutOfRange, Bound::Quota(spec.limit))
    } else {
        Breach::bounded(5, Cause::OutOfRange, Bound::Extent(spec.quota))
    }
}

pub(crate) fn process<'a>(config: &Config, args: &Words<'a>) -> Result<Line<'a>, Breach>
    ensures { said result ≡ process_line config.now (listed args.now) }
{
    let Words::Five(x, limit, quota, extent, locks) = args else {
        return Err(miscounted(2, 5, args));
    };
    let procs = config.procs.items();
    let next = Bound::Next(procs.len());
    let p = marked(2, next, letter(x))?;
    if p as usize != procs.len() {
        return Err(Breach::bounded(2, Cause::Misplaced, next));
    }
    let limit = counted(3, limit)?;
    let quota = counted(4, quota)?;
    let extent = ranged(5, 0, MOST_EXTENT, extent)?;
    let locks = counted(6, locks)?;
    let spec = ProcSpec {
        limit,
        quota,
        extent,
        locks,
    };
    if !are_ordered(&spec) {
        return Err(disordered(&spec));
    }
    if procs.len() >= MOST_PROCESSES as usize {
        let most = Bound::Most(Limited::Processes, MOST_PROCESSES);
        return Err(Breach::bounded(2, Cause::TooMany, most));
    }
    Ok(Line::Process(spec))
}
