//! The flat machine's tables: what it keeps of its configuration, and what each page is mapped to.

ghost use Rattle.std.specs.Prelude.{◌≡◌, ℕ, ◌+◌, ◌*◌, ◌<◌, ◌≤◌, ◌↔◌, Some, None, IsTrue, vec_len};
ghost use Rattle.std.specs.Option.{option_map};
ghost use Rattle.vm_types.specs.declared.limits.TheConstants.{PRIVATE_PAGES};
ghost use Rattle.vm_types.specs.PagePlaces.{item_at};
ghost use Rattle.vm_types.specs.WellFormed.{IsRange};
ghost use Rattle.flat_model.specs.Behind.{IsChangedIn, protected_by};
ghost use Rattle.flat_model.specs.Usable.{IsUsable};

use crate::behind::Behind;
use crate::laying::{protect_range, set_range};
use vm_types::{Addr, Listed, PRIVATE_PAGES, Proc, Section, page_place};

/// The page file's size in blocks and the sections, which never change, and by its place what each
/// page is mapped to.
#[derive(Debug, Drop)]
pub struct Tables {
    pub pagefile: u32,
    pub pages: Vec<Option<Behind>>,
    pub sections: Listed<Section>,
    ghost usable: { (p v : ℕ) → IsUsable sections (item_at pages.items p v) },
}

impl Tables {
    /// What a page of a process (any numbers) is mapped to.
    pub(crate) fn look(&self, p: Proc, number: u32) -> Option<Behind>
        ensures value { result ≡ item_at self.now.pages.items p.0 number }
        ensures usable { IsUsable self.now.sections result }
    {
        self.pages.get(page_place(p, number)?).copied().flatten()
    }

    /// Whether the tables have a process.
    pub(crate) fn has(&self, p: Proc) -> bool
        ensures { IsTrue result ↔ (PRIVATE_PAGES * p.0 + PRIVATE_PAGES ≤ vec_len self.now.pages) }
    {
        p.0 as usize * PRIVATE_PAGES as usize + PRIVATE_PAGES as usize <= self.pages.len()
    }

    /// Maps each page of a range to this, or to nothing.
    pub(crate) fn set(&mut self, p: Proc, at: Addr, count: u32, to: Option<Behind>)
        requires range { IsRange at.0 count }
        requires room { PRIVATE_PAGES * p.0 + PRIVATE_PAGES ≤ vec_len self.old.pages }
        requires usable { IsUsable self.old.sections to }
        ensures pages { IsChangedIn (λ old. to) p.0 at.0 count (item_at self.old.pages.items) (item_at self.new.pages.items) }
        ensures count { vec_len self.new.pages ≡ vec_len self.old.pages }
        ensures pagefile { self.new.pagefile ≡ self.old.pagefile }
        ensures sections { self.new.sections ≡ self.old.sections }
    {
        set_range(&mut self.pages, p, at, count, to);
    }

    /// Gives each mapped page of a range this protection code.
    pub(crate) fn protect(&mut self, p: Proc, at: Addr, count: u32, prot: u8)
        requires range { IsRange at.0 count }
        requires room { PRIVATE_PAGES * p.0 + PRIVATE_PAGES ≤ vec_len self.old.pages }
        requires prot { prot < 16 }
        ensures pages { IsChangedIn (option_map (protected_by prot)) p.0 at.0 count (item_at self.old.pages.items) (item_at self.new.pages.items) }
        ensures count { vec_len self.new.pages ≡ vec_len self.old.pages }
        ensures pagefile { self.new.pagefile ≡ self.old.pagefile }
        ensures sections { self.new.sections ≡ self.old.sections }
    {
        protect_range(&mut self.pages, p, at, count, prot);
    }
}
