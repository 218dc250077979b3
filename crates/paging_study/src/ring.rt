ghost use Rattle.std.specs.Prelude.{◌≡◌, ◌≢◌, ℕ, true, false, None, ◌-◌, ◌<◌, ◌≤◌, ◌⊎◌, length, not, slice_index, slice_index_or, IfOk};
ghost use Rattle.vm_types.specs.declared.limits.TheConstants.{MOST_STUDY_FRAMES};
ghost use Rattle.vm_types.specs.Ring.{choose};
ghost use Rattle.working_set.specs.Slots.{IsEmptySlot};
ghost use Rattle.paging_study.specs.Places.{one_if};
ghost use Rattle.paging_study.specs.RingFaults.{holds, is_held, placed, referenced, ring_faults, slot_chosen};

use crate::string::PageString;
use std::alloc::Global;
use vm_types::NoMemory;
use working_set::{Choice, Ring};

/// The faults that references to these pages have in the ring of a working set with so many slots, 1
/// to 1024, and that limit, empty at first and with no page locked. Takes time as the number of pages,
/// since the ring's choice looks at one slot where no page is locked.
///
/// # Errors
/// `NoMemory` if memory runs out.
pub fn ring_faults(alloc: Global, pages: &PageString, frames: u32) -> Result<u32, NoMemory>
    requires { (1 ≤ frames) × (frames ≤ MOST_STUDY_FRAMES) }
    ensures { IfOk result (λ faults. faults ≡ ring_faults frames pages.now.pages.items) }
{
    let mut ring = Ring::new(alloc, frames)?;
    let mut slots = Vec::with_capacity(alloc, pages.pages.len())?;
    let mut faults = 0;
    for (i, page) in pages.pages.iter().enumerate() {
        let last = last_slot(&slots, pages.firsts[i]);
        let (slot, fault) = refer(&mut ring, frames, last, *page);
        slots.push(slot)?;
        faults += fault;
    }
    Ok(faults)
}

/// Of a place, from 1, the slot in which its page was then; 0 if there is no place.
fn last_slot(slots: &[u32], first: u32) -> u32
    requires { first ≤ length slots.now }
    ensures some { 1 ≤ first → result ≡ slice_index slots.now (first - 1) }
    ensures none { first ≡ 0 → result ≡ 0 }
{
    if first > 0 {
        return slots[first as usize - 1];
    }
    0
}

/// Refers to a page, which is in the slot `last` or in none. Gives the slot in which it is then, and 1
/// if it is a fault, which puts it into the slot that the ring chooses, else 0.
fn refer(ring: &mut Ring, frames: u32, last: u32, page: u32) -> (u32, u32)
    requires len { length ring.old.slots ≡ frames }
    requires slot { last < frames }
    requires only { (s : ℕ) → is_held page (slice_index_or ring.old.slots s None) ≡ true → s ≡ last }
    ensures ring { ring.new ≡ referenced frames ring.old page }
    ensures fault { result.1 ≡ one_if (not (holds ring.old page)) }
    ensures len { length ring.new.slots ≡ length ring.old.slots }
    ensures slot { result.0 < frames }
    ensures held { (s v : ℕ) → is_held v (slice_index_or ring.new.slots s None) ≡ true
        → ((v ≡ page) × (s ≡ result.0)) ⊎ ((v ≢ page) × (is_held v (slice_index_or ring.old.slots s None) ≡ true)) }
{
    if has_page(ring, last, page) {
        return (last, 0);
    }
    (load(ring, frames, page), 1)
}

/// Whether the slot holds the page.
fn has_page(ring: &Ring, slot: u32, page: u32) -> bool
    requires { slot < length ring.now.slots }
    ensures { result ≡ is_held page (slice_index_or ring.now.slots slot None) }
{
    ring.at(slot) == Some(page)
}

/// Puts a page that no slot holds into the slot that the ring chooses, and gives the slot.
fn load(ring: &mut Ring, frames: u32, page: u32) -> u32
    requires len { length ring.old.slots ≡ frames }
    requires some { 1 ≤ frames }
    requires misses { holds ring.old page ≡ false }
    ensures ring { ring.new ≡ referenced frames ring.old page }
    ensures chosen { result ≡ slot_chosen (choose ring.old frames) }
    ensures exists { result < frames }
    ensures len { length ring.new.slots ≡ length ring.old.slots }
{
    match ring.choose(frames) {
        Choice::Empty(slot) => put(ring, slot, page),
        Choice::Victim(slot) => {
            ring.clear(slot, true);
            put(ring, slot, page)
        }
        Choice::AllLocked => 0,
    }
}

/// Puts a page into an empty slot, and the hand on the slot after it. Gives the slot.
fn put(ring: &mut Ring, slot: u32, page: u32) -> u32
    requires { IsEmptySlot ring.old slot }
    ensures placed { ring.new ≡ placed ring.old slot page }
    ensures slot { result ≡ slot }
{
    ring.place(slot, page, true);
    slot
}
