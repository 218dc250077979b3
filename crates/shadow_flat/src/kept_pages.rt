ghost use Rattle.std.specs.Prelude.{◌≡◌, ◌^◌, ◌<◌, None, Some, IfOk, OnOk, true, length};
ghost use Rattle.vm_types.specs.WellFormed.{IsWellFormedReference};
ghost use Rattle.vm_types.specs.declared.names.Page.{Page as AnyPage};
ghost use Rattle.pager_model.specs.Flat.{bytes_after, offset_in_page, reply_from};
ghost use Rattle.pager_model.specs.OfConfig.{IsOrigin};
ghost use Rattle.pager_model.specs.Sets.{at_page};
ghost use Rattle.shadow_tables.specs.PageTables.{item_of};
ghost use Rattle.shadow_flat.specs.Slots.{AreSlots, bytes_kept, found_at};

use crate::first::first_bytes;
use crate::slot::Slot;
use flat_model::apply;
use shadow_tables::PageTable;
use std::alloc::Global;
use std::marker::Model;
use vm_types::{Config, NoMemory, Origin, PAGE_BYTES, PRIVATE_PAGES, Page, Ref, Reply, Section};

/// The bytes of pages, each page's in a row that no other page has. Contracts see the slots by page, and the rows.
#[derive(Debug, Drop)]
pub struct KeptPages {
    /// Of each page that ever got a row.
    slots: PageTable<Slot>,
    /// A page that got a row has it for ever.
    rows: Vec<[u8; 512]>,
}

impl Model for KeptPages {
    ghost use Rattle.std.specs.Prelude.{List, Option, length, ℕ};
    ghost use Rattle.shadow_tables.specs.PageTables.{item_of};
    ghost use Rattle.shadow_flat.specs.declared.slot.Slot.{Slot};
    ghost use Rattle.shadow_flat.specs.Slots.{AreSlots};

    ghost Value = { (List (Option Slot) × List (List (Option Slot))) × List (List ℕ) };

    ghost view = { λ k. (k.slots, k.rows.items) };

    ghost invariant = { λ k. AreSlots (item_of k.slots) (length k.rows.items) };
}

/// For how many pages of so many processes and of these sections there is a place, at most.
fn places_of(procs: usize, sections: &[Section]) -> usize
    requires { procs < 2 ^ 32 }
{
    let mut places = procs * PRIVATE_PAGES as usize;
    for section in sections {
        places = places.saturating_add(section.bytes.items().len() / PAGE_BYTES as usize + 64);
    }
    places
}

/// A page that has a row keeps its bytes from now on: those that it kept, else those that it has before it is touched.
fn keep(
    slots: &mut PageTable<Slot>,
    rows: &mut Vec<[u8; 512]>,
    config: &Config,
    page: Page,
    slot: Slot,
    origin: Origin,
)
    requires origin { IsOrigin config.now origin }
    requires slots { AreSlots (item_of slots.old) (length rows.old.items) }
    requires slot { item_of slots.old page ≡ Some slot }
    ensures slots { AreSlots (item_of slots.new) (length rows.new.items) }
    ensures slot { item_of slots.new page ≡ Some (record { at = slot.at; kept = true }) }
    ensures kept { bytes_kept (slots.new, rows.new.items)
        ≡ at_page (bytes_kept (slots.old, rows.old.items)) page (Some (found_at config.now origin (slots.old, rows.old.items) page)) }
{
    if slot.kept {
        return;
    }
    rows[slot.at] = first_bytes(config, origin);
    slots.set(
        page,
        Some(Slot {
            at: slot.at,
            kept: true,
        }),
    );
}

/// A page that has no row gets one with these bytes.
fn give(
    slots: &mut PageTable<Slot>,
    rows: &mut Vec<[u8; 512]>,
    page: Page,
    bytes: [u8; 512],
) -> Result<usize, NoMemory>
    requires slots { AreSlots (item_of slots.old) (length rows.old.items) }
    requires none { item_of slots.old page ≡ None }
    ensures slots { AreSlots (item_of slots.new) (length rows.new.items) }
    ensures slot { IfOk result (λ at. item_of slots.new page ≡ Some (record { at = at; kept = true })) }
    ensures kept { OnOk result (bytes_kept (slots.new, rows.new.items) ≡ at_page (bytes_kept (slots.old, rows.old.items)) page (Some bytes)) }
{
    let at = rows.len();
    rows.push(bytes)?;
    if slots.set(page, Some(Slot { at, kept: true })) {
        Ok(at)
    } else {
        Err(NoMemory)
    }
}

/// The row of a page, whose bytes are kept from now on: those that were kept, else those that it has before it is
/// touched.
fn row_of(
    slots: &mut PageTable<Slot>,
    rows: &mut Vec<[u8; 512]>,
    config: &Config,
    page: Page,
    origin: Origin,
) -> Result<usize, NoMemory>
    requires origin { IsOrigin config.now origin }
    requires slots { AreSlots (item_of slots.old) (length rows.old.items) }
    ensures slots { AreSlots (item_of slots.new) (length rows.new.items) }
    ensures slot { IfOk result (λ at. item_of slots.new page ≡ Some (record { at = at; kept = true })) }
    ensures kept { OnOk result (bytes_kept (slots.new, rows.new.items)
        ≡ at_page (bytes_kept (slots.old, rows.old.items)) page (Some (found_at config.now origin (slots.old, rows.old.items) page))) }
{
    match slots.at(page) {
        Some(slot) => {
            keep(slots, rows, config, page, slot, origin);
            Ok(slot.at)
        }
        None => give(slots, rows, page, first_bytes(config, origin)),
    }
}

impl KeptPages {
    /// No page's bytes are kept, and each page of so many processes (less than 2^32) and of these sections has a
    /// place. Reserves a row for each of them.
    ///
    /// # Errors
    /// `NoMemory` if out of memory.
    pub fn new(alloc: Global, procs: usize, sections: &[Section]) -> Result<KeptPages, NoMemory>
        requires { procs < 2 ^ 32 }
        ensures { IfOk result (λ k. (page : AnyPage) → bytes_kept k page ≡ None) }
    {
        Ok(KeptPages {
            slots: PageTable::new(alloc, procs, sections)?,
            rows: Vec::with_capacity(alloc, places_of(procs, sections))?,
        })
    }

    /// The reply to a reference by the bytes of its page that are kept, else by those that the page has before it is
    /// touched. The bytes are kept as the reference leaves them.
    ///
    /// # Errors
    /// `NoMemory` if the page has no place, or if out of memory.
    pub fn refer(
        &mut self,
        config: &Config,
        page: Page,
        origin: Origin,
        r: Ref,
    ) -> Result<Reply, NoMemory>
        requires well_formed { IsWellFormedReference r }
        requires origin { IsOrigin config.now origin }
        ensures reply { IfOk result (λ reply. reply ≡ reply_from r.op (found_at config.now origin self.old page) (offset_in_page r)) }
        ensures kept { OnOk result (bytes_kept self.new
            ≡ at_page (bytes_kept self.old) page (Some (bytes_after r.op (found_at config.now origin self.old page) (offset_in_page r)))) }
    {
        let at = row_of(&mut self.slots, &mut self.rows, config, page, origin)?;
        Ok(apply(&mut self.rows[at], r))
    }

    /// No bytes of a page are kept.
    pub fn forget(&mut self, page: Page)
        ensures { bytes_kept self.new ≡ at_page (bytes_kept self.old) page None }
    {
        if let Some(slot) = self.slots.at(page) {
            self.slots.set(
                page,
                Some(Slot {
                    at: slot.at,
                    kept: false,
                }),
            );
        }
    }
}
