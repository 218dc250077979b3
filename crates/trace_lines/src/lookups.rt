ghost use Rattle.std.specs.Prelude.{◌≡◌, ◌<◌, ◌≤◌, IfOk, IfSome, length, sum_by};
ghost use Rattle.vm_types.specs.declared.limits.TheConstants.{MOST_SECTION_PAGES};
ghost use Rattle.vm_types.specs.Configuration.{section_pages};
ghost use Rattle.trace_lines.specs.Lookups.{process, number_named, section, pages_at, bytes_at, blocks_at, has_file, aligned, is_inside};

use trace_words::{Cause, hexadecimal, is_name, letter};
use vm_types::{PAGE_BYTES, ProcSpec, Section, SectionKind};

/// The process of this letter.
pub(crate) fn process(procs: &[ProcSpec], word: &[u8]) -> Result<u32, Cause>
    ensures { result ≡ process procs.now word.now }
{
    let p = letter(word)?;
    if (p as usize) < procs.len() {
        Ok(p)
    } else {
        Err(Cause::NoSuch)
    }
}

/// The number of the section of this name.
pub(crate) fn number_named(sections: &[Section], name: &[u8]) -> Option<usize>
    ensures value { result ≡ number_named sections.now name.now }
    ensures bound { IfSome result (λ s. s < length sections.now) }
{
    sections
        .iter()
        .position(|section| section.name.items() == name)
}

pub(crate) fn section(sections: &[Section], word: &[u8]) -> Result<usize, Cause>
    ensures value { result ≡ section sections.now word.now }
    ensures bound { IfOk result (λ s. s < length sections.now) }
{
    if !is_name(word) {
        return Err(Cause::UnknownWord);
    }
    match number_named(sections, word) {
        Some(s) => Ok(s),
        None => Err(Cause::NoSuch),
    }
}

/// The pages of the section of this number.
pub(crate) fn pages_at(sections: &[Section], s: usize) -> usize
    requires { s < length sections.now }
    ensures { result ≡ pages_at sections.now s }
{
    sections[s].bytes.items().len() / PAGE_BYTES as usize
}

/// The bytes of the section of this number.
pub(crate) fn bytes_at(sections: &[Section], s: usize) -> usize
    requires { s < length sections.now }
    ensures { result ≡ bytes_at sections.now s }
{
    sections[s].bytes.items().len()
}

/// The section blocks of the section of this number: one for each page, and none if it is in the
/// page file.
pub(crate) fn blocks_at(sections: &[Section], s: usize) -> usize
    requires { s < length sections.now }
    ensures { result ≡ blocks_at sections.now s }
{
    match sections[s].kind {
        SectionKind::Shared | SectionKind::Crf => pages_at(sections, s),
        SectionKind::Paged => 0,
    }
}

/// Whether the section of this number has a file: not if it is in the page file.
pub(crate) fn has_file(sections: &[Section], s: usize) -> bool
    requires { s < length sections.now }
    ensures { result ≡ has_file sections.now s }
{
    match sections[s].kind {
        SectionKind::Shared | SectionKind::Crf => true,
        SectionKind::Paged => false,
    }
}

/// The pages of all sections.
pub(crate) fn total_pages(sections: &[Section]) -> usize
    requires { sum_by section_pages sections.now ≤ MOST_SECTION_PAGES }
    ensures { result ≡ sum_by section_pages sections.now }
{
    sections
        .iter()
        .map(|section| section.bytes.items().len() / PAGE_BYTES as usize)
        .sum()
}

/// An address that is a multiple of this.
pub(crate) fn aligned(bytes: u32, word: &[u8]) -> Result<u32, Cause>
    requires { 0 < bytes }
    ensures { result ≡ aligned bytes word.now }
{
    let at = hexadecimal(word)?;
    if at % bytes == 0 {
        Ok(at)
    } else {
        Err(Cause::Unaligned)
    }
}

/// Whether so many pages from the address on lie in one of the two regions.
pub(crate) fn is_inside(at: u32, pages: u32) -> bool
    ensures { result ≡ is_inside at pages }
{
    let end = u64::from(at) + u64::from(PAGE_BYTES) * u64::from(pages);
    end <= 2_097_152 || (at >= 2_146_959_360 && end <= 2_147_483_648)
}
