//! The pages of shared sections that are held with modify set.

ghost use Rattle.std.specs.Prelude.{◌≡◌, ◌≤◌, ◌++◌, ◌&&◌, All, IfOk, OnOk, filter, length};
ghost use Rattle.vm_types.specs.declared.limits.TheConstants.{MOST_SECTION_PAGES};
ghost use Rattle.vm_types.specs.Configuration.{IsWellFormed, section_pages};
ghost use Rattle.vm_types.specs.declared.config.Section.{Section as SectionOf};
ghost use Rattle.pager_model.specs.Forget.{holds_page};
ghost use Rattle.pager_model.specs.DirtyPages.{dirty_pages, is_dirty, pages_from};
ghost use Rattle.shadow_pager.specs.Shown.{shown};
ghost use Rattle.log_report.specs.SharedPages.{shared_pages_of};

use shadow_pager::ShadowPager;
use std::alloc::Global;
use vm_types::{
    Config, NoMemory, PAGE_BYTES, Page, Pfn, SecId, Section, is_same_page, is_shared_kind,
};

/// Whether this is the page that is held.
fn holds(page: Page, held: Option<Page>) -> bool
    ensures { result ≡ holds_page page held }
{
    match held {
        None => false,
        Some(other) => is_same_page(other, page),
    }
}

/// Whether a frame holds the page with modify set.
fn is_dirty_in(pager: &ShadowPager, page: Page, f: Pfn) -> bool
    ensures { result ≡ (holds_page page ((shown pager.now).pager.page f.0) && (shown pager.now).pager.modify f.0) }
{
    holds(page, pager.page(f)) && pager.is_modified(f)
}

/// Whether some frame holds the page with modify set.
fn is_dirty(config: &Config, pager: &ShadowPager, page: Page) -> bool
    ensures { result ≡ is_dirty config.now (shown pager.now).pager page }
{
    for f in 0..config.frames {
        if is_dirty_in(pager, page, Pfn(f)) {
            return true;
        }
    }
    false
}

/// Adds the pages of a section, if it is a shared one.
fn add_pages(s: SecId, section: &Section, pages: &mut Vec<Page>) -> Result<(), NoMemory>
    requires { section_pages section.now ≤ MOST_SECTION_PAGES }
    ensures { OnOk result (pages.new.items ≡ pages.old.items ++ shared_pages_of s.0 section.now) }
{
    if !is_shared_kind(section.kind) {
        return Ok(());
    }
    let bytes = section.bytes.items();
    for i in 0..(bytes.len() / PAGE_BYTES as usize) as u32 {
        pages.push(Page::Shared(s, i))?;
    }
    Ok(())
}

/// The pages of shared sections, in order of section and page.
fn shared_pages(alloc: Global, sections: &[Section]) -> Result<Vec<Page>, NoMemory>
    requires few { length sections.now ≤ 64 }
    requires small { All (λ (section : SectionOf). section_pages section ≤ MOST_SECTION_PAGES) sections.now }
    ensures { IfOk result (λ pages. pages.items ≡ pages_from 0 sections.now) }
{
    let mut pages = Vec::new(alloc);
    for (s, section) in sections.iter().enumerate() {
        add_pages(SecId(s as u32), section, &mut pages)?;
    }
    Ok(pages)
}

/// Takes the pages away that aren't held with modify set.
fn keep_dirty(config: &Config, pager: &ShadowPager, pages: &mut Vec<Page>)
    ensures { pages.new.items ≡ filter (is_dirty config.now (shown pager.now).pager) pages.old.items }
{
    pages.retain(|page| is_dirty(config, pager, *page));
}

/// The pages of shared sections that are held with modify set, in order of section and page. Looks at
/// each frame once for each shared page.
///
/// # Errors
/// `NoMemory` if out of memory.
pub(crate) fn dirty_pages(
    alloc: Global,
    config: &Config,
    pager: &ShadowPager,
) -> Result<Vec<Page>, NoMemory>
    requires { IsWellFormed config.now }
    ensures { IfOk result (λ pages. pages.items ≡ dirty_pages config.now (shown pager.now).pager) }
{
    let mut pages = shared_pages(alloc, config.sections.items())?;
    keep_dirty(config, pager, &mut pages);
    Ok(pages)
}
