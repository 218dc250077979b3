ghost use Rattle.std.specs.Prelude.{◌≡◌, ◌++◌, ◌∷◌, [], Some, IfOk, OnOk, filter, slice_get};
ghost use Rattle.pager_model.specs.DirtyPages.{dirty_pages, is_dirty};
ghost use Rattle.vm_state.specs.History.{pager};
ghost use Rattle.vm_state.specs.PageReadings.{IsKnown};
ghost use Rattle.rundown.specs.DirtyPages.{shared_pages_of};

use disk_trait::Block;
use std::alloc::Global;
use vm_state::State;
use vm_types::{NoMemory, PAGE_BYTES, Page, SecId, Section, is_shared_kind};

/// Whether a frame holds a page with modify set. A shared page is of a section of the configuration.
fn is_dirty<B: Block>(state: &State<B>, page: Page) -> bool
    requires { IsKnown state.now.config page }
    ensures { result ≡ is_dirty state.now.config (pager state.now) page }
{
    state.run_law();
    match state.backing(page).frame {
        Some(f) => {
            let row = state.frame(f);
            row.modify
        }
        None => false,
    }
}

/// Adds a page if it is held with modify set.
///
/// # Errors
/// `NoMemory` if out of memory.
fn add_if_dirty<B: Block>(
    state: &State<B>,
    page: Page,
    pages: &mut Vec<Page>,
) -> Result<(), NoMemory>
    requires { IsKnown state.now.config page }
    ensures { OnOk result (pages.new.items
        ≡ pages.old.items ++ filter (is_dirty state.now.config (pager state.now)) (page ∷ [])) }
{
    if !is_dirty(state, page) {
        return Ok(());
    }
    pages.push(page)?;
    Ok(())
}

/// Adds the pages of a section of the configuration that are held with modify set, if it is a shared one.
///
/// # Errors
/// `NoMemory` if out of memory.
fn add_dirty<B: Block>(
    state: &State<B>,
    s: SecId,
    section: &Section,
    pages: &mut Vec<Page>,
) -> Result<(), NoMemory>
    requires { Some section.now ≡ slice_get state.now.config.sections s.0 }
    ensures { OnOk result (pages.new.items
        ≡ pages.old.items ++ filter (is_dirty state.now.config (pager state.now)) (shared_pages_of s.0 section.now)) }
{
    state.run_law();
    if !is_shared_kind(section.kind) {
        return Ok(());
    }
    let bytes = section.bytes.items();
    for i in 0..(bytes.len() / PAGE_BYTES as usize) as u32 {
        add_if_dirty(state, Page::Shared(s, i), pages)?;
    }
    Ok(())
}

/// The shared pages that are held with modify set, by section and page.
///
/// # Errors
/// `NoMemory` if out of memory.
pub fn dirty_pages<B: Block>(alloc: Global, state: &State<B>) -> Result<Vec<Page>, NoMemory>
    ensures { IfOk result (λ v. v.items ≡ dirty_pages state.now.config (pager state.now)) }
{
    state.run_law();
    let mut pages = Vec::new(alloc);
    for (s, section) in state.config().sections.items().iter().enumerate() {
        add_dirty(state, SecId(s as u32), section, &mut pages)?;
    }
    Ok(pages)
}
