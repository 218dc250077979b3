//! How the table of what pages are mapped to is filled and changed.

ghost use Rattle.std.specs.Prelude.{◌≡◌, ℕ, ◌*◌, None, Some, All, IfOk, find, length, vec_len};
ghost use Rattle.std.specs.Option.{option_map};
ghost use Rattle.vm_types.specs.declared.limits.TheConstants.{PRIVATE_PAGES};
ghost use Rattle.vm_types.specs.Behind.{covers};
ghost use Rattle.vm_types.specs.Configuration.{IsWellFormed};
ghost use Rattle.vm_types.specs.PagePlaces.{item_at};
ghost use Rattle.pager_model.specs.FlatService.{demand_zero, map_range, with_prot};
ghost use Rattle.pager_model.specs.Maps.{first_map, mapped_by};
ghost use Rattle.shadow_tables.specs.Laying.{IsLaid};
ghost use Rattle.vm_types.specs.Laying.{CanChange, CanLay};

use crate::behind::Behind;
use std::alloc::Global;
use vm_types::{
    Addr, Config, Mapping, NoMemory, Origin, PAGE_BYTES, PRIVATE_PAGES, Proc, origin_after,
    page_place,
};

/// Maps each page of a mapping to what the mapping says.
fn lay(pages: &mut [Option<Behind>], mapping: &Mapping)
    requires { CanLay (length pages.old) mapping.now }
    ensures { IsLaid mapping.now (item_at pages.old) (item_at pages.new) }
{
    let first = mapping.at.0 / PAGE_BYTES;
    for k in 0..mapping.pages {
        let place = page_place(mapping.proc, first + k).unwrap();
        pages[place] = Some(Behind::new(origin_after(mapping.from, k), mapping.prot));
    }
}

/// Maps each page to what the first mapping that has it says, in a table that has nothing yet.
fn lay_all(pages: &mut [Option<Behind>], maps: &[Mapping])
    requires empty { (p v : ℕ) → item_at pages.old p v ≡ None }
    requires can { All (CanLay (length pages.old)) maps.now }
    ensures { (p v : ℕ) → item_at pages.new p v ≡ option_map (mapped_by v) (find (covers p v) maps.now) }
{
    // Backwards, so that the first mapping counts.
    let mut left = maps.len();
    while left > 0 {
        left -= 1;
        lay(pages, &maps[left]);
    }
}

/// What each page of the processes is mapped to at first.
///
/// # Errors
/// `NoMemory` if out of memory.
pub fn pages_of(alloc: Global, config: &Config) -> Result<Vec<Option<Behind>>, NoMemory>
    requires { IsWellFormed config.now }
    ensures count { IfOk result (λ pages. vec_len pages ≡ length config.now.procs * PRIVATE_PAGES) }
    ensures pages { IfOk result (λ pages. (p v : ℕ) → item_at pages.items p v ≡ first_map config.now p v) }
{
    let mut pages = vec![in alloc; None; config.procs.items().len() * PRIVATE_PAGES as usize]?;
    lay_all(&mut pages, config.maps.items());
    Ok(pages)
}

/// Maps each page of a range to zeros.
pub fn zero_range(pages: &mut Vec<Option<Behind>>, p: Proc, at: Addr, count: u32, prot: u8)
    requires { CanChange (vec_len pages.old) p.0 at.0 count }
    ensures pages { (q v : ℕ) → item_at pages.new.items q v ≡ map_range (λ old. Some (demand_zero prot)) p.0 at.0 count (item_at pages.old.items) q v }
    ensures count { vec_len pages.new ≡ vec_len pages.old }
{
    let first = at.0 / PAGE_BYTES;
    for k in 0..count {
        let place = page_place(p, first + k).unwrap();
        pages[place] = Some(Behind::new(Origin::Zero, prot));
    }
}

/// Maps each page of a range to nothing.
pub fn clear_range(pages: &mut Vec<Option<Behind>>, p: Proc, at: Addr, count: u32)
    requires { CanChange (vec_len pages.old) p.0 at.0 count }
    ensures pages { (q v : ℕ) → item_at pages.new.items q v ≡ map_range (λ old. None) p.0 at.0 count (item_at pages.old.items) q v }
    ensures count { vec_len pages.new ≡ vec_len pages.old }
{
    let first = at.0 / PAGE_BYTES;
    for k in 0..count {
        let place = page_place(p, first + k).unwrap();
        pages[place] = None;
    }
}

/// What a page is mapped to, with another protection code.
fn protected(old: Option<Behind>, prot: u8) -> Option<Behind>
    ensures { result ≡ option_map (with_prot prot) old }
{
    match old {
        None => None,
        Some(behind) => Some(Behind::new(behind.origin(), prot)),
    }
}

/// Gives each mapped page of a range this protection code.
pub fn protect_range(pages: &mut Vec<Option<Behind>>, p: Proc, at: Addr, count: u32, prot: u8)
    requires { CanChange (vec_len pages.old) p.0 at.0 count }
    ensures pages { (q v : ℕ) → item_at pages.new.items q v ≡ map_range (option_map (with_prot prot)) p.0 at.0 count (item_at pages.old.items) q v }
    ensures count { vec_len pages.new ≡ vec_len pages.old }
{
    let first = at.0 / PAGE_BYTES;
    for k in 0..count {
        let place = page_place(p, first + k).unwrap();
        pages[place] = protected(pages[place], prot);
    }
}
