ghost use Rattle.std.specs.Prelude.{◌≡◌, ◌<◌, ◌≤◌, None, count_by, if◌then◌else◌, length, slice_set};
ghost use Rattle.vm_types.specs.Ring.{choose, filled, unpinned};
ghost use Rattle.working_set.specs.Slots.{IsEmptySlot, pin_at, slot_at, with_lock, with_pin};
ghost use Rattle.pager_model.specs.Evict.{evicted_ring};
ghost use Rattle.pager_model.specs.Lookups.{has_vpn, slot_with};
ghost use Rattle.pager_model.specs.Ring.{placed, range_locked, slotted, unlocked};
ghost use Rattle.pager_model.specs.Served.{is_fixed_in, is_locked_in, is_pinned_in, is_slot_in};
ghost use Rattle.state_parts.specs.Repinned.{page_to_pin};
ghost use Rattle.state_parts.specs.Victim.{HasVictim, slot_given};

use vm_journal::EvictWhy;
use vm_types::{Addr, PAGE_BYTES};
use working_set::{Choice, Ring};

/// Unlocks each page of the ring.
pub fn unlock_all(ring: &mut Ring)
    ensures { ring.new ≡ unlocked ring.old }
{
    for slot in 0..ring.slots() {
        mark(ring, slot, false);
    }
}

/// Locks, or unlocks, each page of the ring that is one of so many pages (any number) from the
/// address's page on.
pub fn lock_range(ring: &mut Ring, at: Addr, pages: u32, lock: bool)
    ensures { ring.new ≡ range_locked lock at.0 pages ring.old }
{
    for slot in 0..ring.slots() {
        if is_in(ring, slot, at, pages) {
            mark(ring, slot, lock);
        }
    }
}

/// The slot that has the page number (any): the first one, and the number of slots if none has it.
pub fn slot_of(ring: &Ring, vpn: u32) -> u32
    ensures { result ≡ slot_with ring.now vpn }
{
    for slot in 0..ring.slots() {
        if has(ring, slot, vpn) {
            return slot;
        }
    }
    ring.slots()
}

/// How many slots have one of so many pages (any number) from the address's page on.
pub fn count_in(ring: &Ring, at: Addr, pages: u32) -> u32
    ensures { result ≡ count_by (is_slot_in at.0 pages) ring.now.slots }
{
    let mut count = 0;
    for slot in 0..ring.slots() {
        if is_in(ring, slot, at, pages) {
            count += 1;
        }
    }
    count
}

/// How many slots have one of so many pages (any number) from the address's page on, and that
/// locked.
pub fn locked_in(ring: &Ring, at: Addr, pages: u32) -> u32
    ensures { result ≡ count_by (is_locked_in at.0 pages) ring.now.slots }
{
    let mut count = 0;
    for slot in 0..ring.slots() {
        if is_in(ring, slot, at, pages) && ring.is_locked(slot) {
            count += 1;
        }
    }
    count
}

/// How many slots have a page that isn't pinned.
pub fn unpinned(ring: &Ring) -> u32
    ensures { result ≡ unpinned ring.now.slots }
{
    let mut count = 0;
    for slot in 0..ring.slots() {
        if ring.at(slot).is_some() && !ring.pinned(slot) {
            count += 1;
        }
    }
    count
}

/// How many slots have one of so many pages (any number) from the address's page on, and that locked
/// or pinned.
pub fn fixed_in(ring: &Ring, at: Addr, pages: u32) -> u32
    ensures { result ≡ count_by (is_fixed_in at.0 pages) ring.now.slots }
{
    let mut count = 0;
    for slot in 0..ring.slots() {
        if is_in(ring, slot, at, pages) && (ring.is_locked(slot) || ring.pinned(slot)) {
            count += 1;
        }
    }
    count
}

/// How many slots have one of so many pages (any number) from the address's page on, and that
/// pinned.
pub fn pinned_in(ring: &Ring, at: Addr, pages: u32) -> u32
    ensures { result ≡ count_by (is_pinned_in at.0 pages) ring.now.slots }
{
    let mut count = 0;
    for slot in 0..ring.slots() {
        if is_in(ring, slot, at, pages) && ring.pinned(slot) {
            count += 1;
        }
    }
    count
}

/// Puts a page, by its number (any), into the slot that a ring below its limit (at most the number
/// of slots) offers, and returns that slot. The hand goes on past it.
pub fn take_slot(ring: &mut Ring, limit: u32, vpn: u32) -> u32
    requires below { filled ring.old.slots < limit }
    requires limit { limit ≤ length ring.old.slots }
    ensures placed { ring.new ≡ placed ring.old limit vpn }
    ensures offered { choose ring.old limit ≡ Choice.Empty result }
{
    let Choice::Empty(slot) = ring.choose(limit) else {
        unreachable!();
    };
    ring.place(slot, vpn, true);
    slot
}

/// Puts a page, by its number (any), into an empty slot. The hand stays.
pub fn put_in_slot(ring: &mut Ring, slot: u32, vpn: u32)
    requires { IsEmptySlot ring.old slot }
    ensures { ring.new ≡ slotted ring.old slot vpn }
{
    ring.place(slot, vpn, false);
}

/// Empties the slot of a page that leaves the ring, with its lock and its pin, and says whether the page was
/// pinned there. A replaced page is the ring's victim at the limit, and the hand stands on its slot then; for
/// each other cause the hand stays.
pub fn give_up(ring: &mut Ring, limit: u32, why: EvictWhy, vpn: u32) -> bool
    requires held { slot_with ring.old vpn < length ring.old.slots }
    requires victim { HasVictim why ring.old limit }
    ensures ring { ring.new ≡ evicted_ring why ring.old limit vpn }
    ensures pinned { result ≡ pin_at ring.old (slot_given why ring.old limit vpn) }
{
    if why == EvictWhy::Replace {
        let Choice::Victim(slot) = ring.choose(limit) else {
            unreachable!();
        };
        empty_slot(ring, slot, true)
    } else {
        let slot = slot_of(ring, vpn);
        empty_slot(ring, slot, false)
    }
}

/// Empties the slot, and says whether its page was pinned. With `point` the hand stands on it.
fn empty_slot(ring: &mut Ring, slot: u32, point: bool) -> bool
    requires { slot < length ring.old.slots }
    ensures ring { ring.new ≡ record {
      slots = slice_set ring.old.slots slot None;
      hand = if point then slot else ring.old.hand;
    } }
    ensures pinned { result ≡ pin_at ring.old slot }
{
    let pinned = ring.pinned(slot);
    ring.clear(slot, point);
    pinned
}

/// Locks, or unlocks, the page in the slot, if it has one.
fn mark(ring: &mut Ring, slot: u32, lock: bool)
    requires { slot < length ring.old.slots }
    ensures { ring.new ≡ with_lock ring.old slot lock }
{
    if ring.at(slot).is_none() {
        return;
    }
    if lock {
        ring.lock(slot);
    } else {
        ring.unlock(slot);
    }
}

/// Pins, or unpins, the page in the slot, if it has one.
pub fn mark_pin(ring: &mut Ring, slot: u32, pin: bool)
    requires { slot < length ring.old.slots }
    ensures { ring.new ≡ with_pin ring.old slot pin }
{
    if ring.at(slot).is_none() {
        return;
    }
    if pin {
        ring.pin(slot);
    } else {
        ring.unpin(slot);
    }
}

/// The page number in the slot, if it is one of so many pages (any number) from the address's page on whose
/// pin changes if they are pinned, or unpinned.
pub fn page_to_pin(ring: &Ring, slot: u32, at: Addr, pages: u32, pin: bool) -> Option<u32>
    requires { slot < length ring.now.slots }
    ensures { result ≡ page_to_pin pin at.0 pages (slot_at ring.now slot) }
{
    if is_in(ring, slot, at, pages) && ring.pinned(slot) != pin {
        ring.at(slot)
    } else {
        None
    }
}

/// Whether the slot has the page number.
fn has(ring: &Ring, slot: u32, vpn: u32) -> bool
    requires { slot < length ring.now.slots }
    ensures { result ≡ has_vpn vpn (slot_at ring.now slot) }
{
    ring.at(slot).is_some_and(|page| page == vpn)
}

/// Whether the slot has one of so many pages from the address's page on.
fn is_in(ring: &Ring, slot: u32, at: Addr, pages: u32) -> bool
    requires { slot < length ring.now.slots }
    ensures { result ≡ is_slot_in at.0 pages (slot_at ring.now slot) }
{
    let first = at.0 / PAGE_BYTES;
    ring.at(slot)
        .is_some_and(|vpn| vpn >= first && vpn - first < pages)
}
