//! Lists of pages and frames.

ghost use Rattle.std.specs.Prelude.{◌≡◌, OnOk, slice_get};
ghost use Rattle.page_lists.specs.Lists.{without};
ghost use Rattle.pager_model.specs.Back.{block_slot, lies_of};
ghost use Rattle.pager_model.specs.Changes.{is_section_block, lies_nowhere};
ghost use Rattle.pager_model.specs.Maps.{is_paged, is_private, page_behind, paged_of, shared_of};
ghost use Rattle.pager_model.specs.OutLanding.{lies_at};
ghost use Rattle.shadow_tables.specs.Lying.{first_by, lies_by};

use crate::lying_pages::LyingPages;
use vm_types::{BlockId, Config, NoMemory, Origin, Page, Proc, SecId, SectionKind};

/// Whether the page is a process's own.
pub fn is_own(page: Page) -> bool
    ensures { result ≡ is_private page }
{
    match page {
        Page::Private(_, _) => true,
        Page::Shared(_, _) => false,
    }
}

/// Whether the block is a section's.
pub fn is_of_section(block: BlockId) -> bool
    ensures { result ≡ is_section_block block }
{
    match block {
        BlockId::Section(_, _) => true,
        BlockId::PageFile(_) | BlockId::Swap(_, _) => false,
    }
}

/// Where a page lies at first, by the kinds of the sections: a page of a section with a file in its
/// block, another one nowhere.
pub(crate) fn first_block(kinds: &[SectionKind], page: Page) -> Option<BlockId>
    ensures { result ≡ first_by kinds.now page }
{
    match page {
        Page::Private(_, _) => None,
        Page::Shared(s, i) => match kinds.get(s.0 as usize) {
            Some(SectionKind::Paged) => None,
            Some(SectionKind::Shared | SectionKind::Crf) | None => Some(BlockId::Section(s, i)),
        },
    }
}

/// Whether a section's pages are shared; those of one that is not there aren't.
fn is_shared(config: &Config, s: SecId) -> bool
    ensures { result ≡ shared_of (slice_get config.now.sections s.0) }
{
    match config.sections.items().get(s.0 as usize) {
        None => false,
        Some(section) => match section.kind {
            SectionKind::Shared | SectionKind::Paged => true,
            SectionKind::Crf => false,
        },
    }
}

/// Whether a section is in the page file; one that is not there isn't.
fn is_paged_section(config: &Config, s: SecId) -> bool
    ensures { result ≡ paged_of (slice_get config.now.sections s.0) }
{
    match config.sections.items().get(s.0 as usize) {
        None => false,
        Some(section) => match section.kind {
            SectionKind::Paged => true,
            SectionKind::Shared | SectionKind::Crf => false,
        },
    }
}

/// Whether the page has a block of the page file.
pub fn is_paged(config: &Config, page: Page) -> bool
    ensures { result ≡ is_paged config.now page }
{
    match page {
        Page::Private(_, _) => true,
        Page::Shared(s, _) => is_paged_section(config, s),
    }
}

/// The page behind a page number of a process: a shared section's, or the process's own.
pub fn page_behind(config: &Config, p: Proc, v: u32, origin: Origin) -> Page
    ensures { result ≡ page_behind config.now p.0 v origin }
{
    match origin {
        Origin::Zero => Page::Private(p, v),
        Origin::Section(s, page) => {
            if is_shared(config, s) {
                Page::Shared(s, page)
            } else {
                Page::Private(p, v)
            }
        }
    }
}

/// Takes a frame away.
pub fn remove(list: &mut Vec<u32>, frame: u32)
    ensures { list.new.items ≡ without list.old.items frame }
{
    list.retain(|other| *other != frame);
}

/// Says that the page, if there is one, lies nowhere.
///
/// # Errors
/// `NoMemory` if out of memory, or if the page has no place; nothing is changed then.
pub fn lay_nowhere(lies: &mut LyingPages, page: Option<Page>) -> Result<(), NoMemory>
    ensures { OnOk result (lies_by lies.new ≡ lies_nowhere (lies_by lies.old) page) }
{
    match page {
        None => Ok(()),
        Some(page) => lies.lay(page, None),
    }
}

/// Says that the page, if there is one, lies in the block, unless it was modified.
///
/// # Errors
/// `NoMemory` if out of memory, or if the page has no place; nothing is changed then.
pub fn lay_at(
    lies: &mut LyingPages,
    modified: bool,
    page: Option<Page>,
    block: BlockId,
) -> Result<(), NoMemory>
    ensures { OnOk result (lies_by lies.new ≡ lies_at (lies_by lies.old) modified page block) }
{
    match page {
        None => Ok(()),
        Some(page) => {
            if modified {
                Ok(())
            } else {
                lies.lay(page, Some(block))
            }
        }
    }
}

/// The slot in whose swap block the page, if there is one, lies.
pub fn slot_lying(lies: &LyingPages, page: Option<Page>) -> u32
    ensures { result ≡ block_slot (lies_of (lies_by lies.now) page) }
{
    match page {
        None => 0,
        Some(page) => slot_of(lies.at(page)),
    }
}

/// The slot of a swap block, and 0 for no such block.
pub fn slot_of(block: Option<BlockId>) -> u32
    ensures { result ≡ block_slot block }
{
    match block {
        Some(BlockId::Swap(_, slot)) => slot,
        Some(BlockId::Section(_, _) | BlockId::PageFile(_)) | None => 0,
    }
}
