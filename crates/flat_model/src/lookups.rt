//! The tables of a configuration, and what is found in them.

ghost use Rattle.std.specs.Prelude.{◌≡◌, ℕ, ◌*◌, find, length, slice_get, vec_len, IfOk};
ghost use Rattle.std.specs.Option.{option_map};
ghost use Rattle.vm_types.specs.declared.limits.TheConstants.{PRIVATE_PAGES};
ghost use Rattle.vm_types.specs.Behind.{covers};
ghost use Rattle.vm_types.specs.PagePlaces.{item_at};
ghost use Rattle.vm_types.specs.Configuration.{IsWellFormed};
ghost use Rattle.vm_types.specs.declared.config.Config.{Config};
ghost use Rattle.pager_model.specs.Maps.{first_map, shared_of, page_behind, first_bytes, paged_of};
ghost use Rattle.flat_model.specs.FlatMachine.{AreTablesOf};
ghost use Rattle.flat_model.specs.Behind.{behind_by, mapped_in};
ghost use Rattle.flat_model.specs.Usable.{IsOrigin};

use crate::behind::Behind;
use crate::laying::lay_all;
use crate::tables::Tables;
use std::alloc::Global;
use vm_types::{
    Config, Listed, NoMemory, Origin, PAGE_BYTES, PRIVATE_PAGES, Page, Proc, SecId, Section,
    SectionKind,
};

/// A copy of the bytes.
fn copied(alloc: Global, bytes: &[u8]) -> Result<Listed<u8>, NoMemory>
    ensures { IfOk result (λ copy. copy ≡ bytes.now) }
{
    Ok(Listed::of(Vec::from_slice(alloc, bytes)?))
}

/// A copy of a section.
fn section_copy(alloc: Global, section: &Section) -> Result<Section, NoMemory>
    ensures { IfOk result (λ copy. copy ≡ section.now) }
{
    Ok(Section {
        name: copied(alloc, section.name.items())?,
        kind: section.kind,
        bytes: copied(alloc, section.bytes.items())?,
    })
}

/// A copy of the sections.
fn sections_copy(alloc: Global, sections: &[Section]) -> Result<Listed<Section>, NoMemory>
    ensures { IfOk result (λ copy. copy ≡ sections.now) }
{
    let mut copy = Listed::new(alloc);
    for section in sections {
        copy.push(section_copy(alloc, section)?)?;
    }
    Ok(copy)
}

/// What each page of the processes is mapped to.
fn pages_of(alloc: Global, config: &Config) -> Result<Vec<Option<Behind>>, NoMemory>
    requires { IsWellFormed config.now }
    ensures count { IfOk result (λ pages. vec_len pages ≡ length config.now.procs * PRIVATE_PAGES) }
    ensures pages { IfOk result (λ pages. (p v : ℕ) → item_at pages.items p v ≡ option_map (behind_by v) (find (covers p v) config.now.maps)) }
{
    let mut pages = vec![in alloc; None; config.procs.items().len() * PRIVATE_PAGES as usize]?;
    lay_all(&mut pages, config.maps.items());
    Ok(pages)
}

/// The tables of a configuration.
pub fn tables_of(alloc: Global, config: &Config) -> Result<Tables, NoMemory>
    requires { IsWellFormed config.now }
    ensures tables { IfOk result (AreTablesOf config.now) }
    ensures map { IfOk result (λ tables. (p v : ℕ) → first_map config.now p v ≡ mapped_in tables.pages.items p v) }
{
    Ok(Tables {
        pagefile: config.pagefile,
        pages: pages_of(alloc, config)?,
        sections: sections_copy(alloc, config.sections.items())?,
    })
}

/// Whether the processes share a section's pages; of one that is not there they don't.
fn is_shared(sections: &[Section], s: SecId) -> bool
    ensures { result ≡ shared_of (slice_get sections.now s.0) }
{
    match sections.get(s.0 as usize) {
        None => false,
        Some(section) => match section.kind {
            SectionKind::Shared | SectionKind::Paged => true,
            SectionKind::Crf => false,
        },
    }
}

/// Whether a section's pages are in the page file; those of one that is not there aren't.
pub fn is_paged(sections: &[Section], s: SecId) -> bool
    ensures { result ≡ paged_of (slice_get sections.now s.0) }
{
    match sections.get(s.0 as usize) {
        None => false,
        Some(section) => match section.kind {
            SectionKind::Paged => true,
            SectionKind::Shared | SectionKind::Crf => false,
        },
    }
}

/// The page behind a page number of a process: a shared section's, or the process's own.
pub fn page_at(sections: &[Section], p: Proc, number: u32, origin: Origin) -> Page
    ensures { (config : Config) → sections.now ≡ config.sections → result ≡ page_behind config p.0 number origin }
{
    match origin {
        Origin::Zero => Page::Private(p, number),
        Origin::Section(s, page) => {
            if is_shared(sections, s) {
                Page::Shared(s, page)
            } else {
                Page::Private(p, number)
            }
        }
    }
}

/// The 512 bytes that a page has before it is touched.
pub fn bytes_at(sections: &[Section], origin: Origin) -> [u8; 512]
    requires { IsOrigin sections.now origin }
    ensures { (config : Config) → sections.now ≡ config.sections → result ≡ first_bytes config origin }
{
    match origin {
        Origin::Zero => [0; 512],
        Origin::Section(s, page) => {
            if is_paged(sections, s) {
                return [0; 512];
            }
            let from = PAGE_BYTES as usize * page as usize;
            let mut bytes = [0; 512];
            bytes.copy_from_slice(
                &sections[s.0 as usize].bytes.items()[from..from + PAGE_BYTES as usize],
            );
            bytes
        }
    }
}
