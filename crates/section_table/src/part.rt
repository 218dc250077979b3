ghost use Rattle.std.specs.Prelude.{◌≡◌, IfOk, map};
ghost use Rattle.section_table.specs.SectionTable.{backs_private, backs_shared, part_of, private_home, shared_home};

use std::alloc::{AllocError, Global};
use vm_types::{BlockId, Origin, PAGE_BYTES, SecId, Section, SectionKind};

/// A section's kind and the number of its pages.
#[derive(Clone, Copy, Debug, PartialEq, Eq)]
pub struct Part {
    pub kind: SectionKind,
    pub pages: usize,
}

/// The kind of a section and its pages.
fn part_of(section: &Section) -> Part
    ensures { result ≡ part_of section.now }
{
    Part {
        kind: section.kind,
        pages: section.bytes.items().len() / PAGE_BYTES as usize,
    }
}

/// The kinds of sections and their pages.
pub fn parts_of(alloc: Global, sections: &[Section]) -> Result<Vec<Part>, AllocError>
    ensures { IfOk result (λ parts. parts.items ≡ map part_of sections.now) }
{
    sections
        .iter()
        .map(|section| part_of(section))
        .collect(alloc)
}

/// Whether a shared page of such a section lies in its section block.
fn backs_shared(kind: SectionKind) -> bool
    ensures { result ≡ backs_shared kind }
{
    match kind {
        SectionKind::Shared => true,
        SectionKind::Crf | SectionKind::Paged => false,
    }
}

/// Whether a process's own page over such a section has a section block behind it.
fn backs_private(kind: SectionKind) -> bool
    ensures { result ≡ backs_private kind }
{
    match kind {
        SectionKind::Crf => true,
        SectionKind::Shared | SectionKind::Paged => false,
    }
}

/// The section block of a shared page.
pub fn shared_home(parts: &[Part], s: SecId, page: u32) -> Option<BlockId>
    ensures { result ≡ shared_home parts.now s page }
{
    let part = parts.get(s.0 as usize)?;
    if backs_shared(part.kind) && (page as usize) < part.pages {
        Some(BlockId::Section(s, page))
    } else {
        None
    }
}

/// The section block behind a process's own page, by what is behind the page.
pub fn private_home(parts: &[Part], behind: Option<Origin>) -> Option<BlockId>
    ensures { result ≡ private_home parts.now behind }
{
    match behind {
        Some(Origin::Section(s, page)) => {
            let part = parts.get(s.0 as usize)?;
            if backs_private(part.kind) {
                Some(BlockId::Section(s, page))
            } else {
                None
            }
        }
        _ => None,
    }
}
