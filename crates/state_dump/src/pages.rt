//! The valid pages of a process, with the words of their page table entries.

ghost use Rattle.std.specs.Prelude.{◌≡◌, ◌<◌, ◌++◌, IfOk, IsSome, OnOk, length, slice_get};
ghost use Rattle.pager_model.specs.Lookups.{entry_of, slot_of};
ghost use Rattle.vm_state.specs.History.{pager};
ghost use Rattle.dump_laws.specs.DumpAfter.{entry_word, valid_pages, words_of};
ghost use Rattle.state_dump.specs.Slots.{page_in};

use disk_trait::Block;
use std::alloc::Global;
use vm_state::State;
use vm_types::{NoMemory, Proc};

/// Adds the page of a slot of a process of the configuration to its valid pages, if the slot is filled.
fn push_page<B: Block>(
    state: &State<B>,
    p: Proc,
    n: u32,
    pages: &mut Vec<u32>,
) -> Result<(), NoMemory>
    requires { p.0 < length state.now.config.procs }
    ensures { OnOk result (pages.new.items ≡ pages.old.items ++ page_in (slot_of (slice_get ((pager state.now).ring p.0).slots n))) }
{
    state.run_law();
    match state.slot(p, n) {
        Some(slot) => {
            pages.push(slot.vpn)?;
            Ok(())
        }
        None => Ok(()),
    }
}

/// The page numbers of a process of the configuration that are valid, ascending: those of the filled
/// slots of its working set list, of which there are so many.
fn pages_of<B: Block>(
    alloc: Global,
    state: &State<B>,
    p: Proc,
    slots: u32,
) -> Result<Vec<u32>, NoMemory>
    requires there { p.0 < length state.now.config.procs }
    requires slots { slots ≡ length ((pager state.now).ring p.0).slots }
    ensures { IfOk result (λ pages. pages.items ≡ valid_pages (pager state.now).valid p.0) }
{
    state.run_law();
    let mut pages = Vec::with_capacity(alloc, slots as usize)?;
    for n in 0..slots {
        push_page(state, p, n, &mut pages)?;
    }
    pages.sort_unstable();
    Ok(pages)
}

/// The word of the valid entry of a process for a page number.
fn word_at<B: Block>(state: &State<B>, p: Proc, vpn: u32) -> u32
    requires { IsSome (entry_of (pager state.now).valid p.0 vpn) }
    ensures { result ≡ entry_word (pager state.now) p.0 vpn }
{
    state.run_law();
    match state.word(p, vpn) {
        Some(word) => word,
        None => 0,
    }
}

/// The valid pages of a process of the configuration with the words of their entries, by page number.
/// Its working set list has so many slots.
pub(crate) fn entry_words<B: Block>(
    alloc: Global,
    state: &State<B>,
    p: Proc,
    slots: u32,
) -> Result<Vec<(u32, u32)>, NoMemory>
    requires there { p.0 < length state.now.config.procs }
    requires slots { slots ≡ length ((pager state.now).ring p.0).slots }
    ensures { IfOk result (λ words. words.items ≡ words_of (pager state.now) p.0) }
{
    state.run_law();
    let pages = pages_of(alloc, state, p, slots)?;
    let mut words = Vec::with_capacity(alloc, pages.len())?;
    for vpn in &pages {
        words.push((*vpn, word_at(state, p, *vpn)))?;
    }
    Ok(words)
}
