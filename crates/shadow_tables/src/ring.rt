ghost use Rattle.std.specs.Prelude.{◌≡◌, ◌≤◌, true, IfOk, count_by, length, replicate, slice_get};
ghost use Rattle.vm_types.specs.declared.limits.TheConstants.{MOST_EXTENT};
ghost use Rattle.vm_types.specs.Ring.{choose, filled, fixed, is_pinned_slot, unpinned};
ghost use Rattle.vm_journal.specs.declared.entry.EvictWhy.{EvictWhy};
ghost use Rattle.pager_model.specs.Evict.{evicted_ring, victim_of};
ghost use Rattle.pager_model.specs.Lookups.{slot_of, slot_with};
ghost use Rattle.pager_model.specs.Served.{is_fixed_in, is_locked_in, is_pinned_in, is_slot_in};
ghost use Rattle.pager_model.specs.Ring.{placed, range_locked, range_pinned, slotted, unlocked};

use crate::held::Held;
use state_parts::{
    count_in, fixed_in, lock_range, locked_in, mark_pin, page_to_pin, pinned_in, slot_of,
    take_slot, unlock_all, unpinned,
};
use std::alloc::Global;
use std::marker::Model;
use vm_journal::EvictWhy;
use vm_types::{Addr, Choice, NoMemory};

/// A working set list: slots, each empty or with a page, and the hand. It is working_set's ring, of which this takes
/// any numbers: a limit past the slots, a slot that isn't there, a page that is in none.
#[derive(Debug, Drop)]
pub struct Ring {
    ring: working_set::Ring,
}

impl Model for Ring {
    ghost use Rattle.std.specs.Prelude.{◌≤◌, length};
    ghost use Rattle.vm_types.specs.declared.limits.TheConstants.{MOST_EXTENT};
    ghost use Rattle.vm_types.specs.Ring.{Ring as RingOfSlots};

    ghost Value = { RingOfSlots };

    ghost view = { λ r. r.ring };

    ghost invariant = { λ r. (1 ≤ length r.ring.slots) × (length r.ring.slots ≤ MOST_EXTENT) };
}

/// Pins the pages of a range, or unpins them.
fn pin_range(ring: &mut working_set::Ring, at: Addr, pages: u32, pin: bool)
    ensures { ring.new ≡ range_pinned pin at.0 pages ring.old }
{
    for slot in 0..ring.slots() {
        if page_to_pin(ring, slot, at, pages, pin).is_some() {
            mark_pin(ring, slot, pin);
        }
    }
}

/// The slot of a victim; the first one if there is no victim.
fn victim(choice: Choice) -> u32
    ensures { result ≡ victim_of choice }
{
    match choice {
        Choice::Victim(slot) => slot,
        Choice::Empty(_) | Choice::AllLocked => 0,
    }
}

impl Ring {
    ghost use Rattle.shadow_tables.specs.Rings.{IsWithin};

    /// So many empty slots (1 at least), with the hand on the first.
    ///
    /// # Errors
    /// `NoMemory` if out of memory.
    pub fn new(alloc: Global, slots: u32) -> Result<Ring, NoMemory>
        requires some { 1 ≤ slots }
        requires few { slots ≤ MOST_EXTENT }
        ensures { IfOk result (λ r. r ≡ record { slots = replicate slots None; hand = 0 }) }
    {
        Ok(Ring {
            ring: working_set::Ring::new(alloc, slots)?,
        })
    }

    /// How many slots there are.
    pub fn slots(&self) -> u32
        ensures count { result ≡ length self.now.slots }
        ensures few { result ≤ MOST_EXTENT }
    {
        self.ring.slots()
    }

    /// How many slots are filled.
    pub fn filled(&self) -> u32
        ensures { result ≡ filled self.now.slots }
    {
        self.ring.count()
    }

    /// How many pages are locked or pinned.
    pub fn locked(&self) -> u32
        ensures { result ≡ fixed self.now.slots }
    {
        self.ring.locked()
    }

    /// How many pages aren't pinned.
    pub fn unpinned(&self) -> u32
        ensures { result ≡ unpinned self.now.slots }
    {
        unpinned(&self.ring)
    }

    /// How many pages of a range the slots have.
    pub fn within(&self, at: Addr, pages: u32) -> u32
        ensures { result ≡ count_by (is_slot_in at.0 pages) self.now.slots }
    {
        count_in(&self.ring, at, pages)
    }

    /// How many locked pages of a range the slots have.
    pub fn locked_within(&self, at: Addr, pages: u32) -> u32
        ensures { result ≡ count_by (is_locked_in at.0 pages) self.now.slots }
    {
        locked_in(&self.ring, at, pages)
    }

    /// How many pinned pages of a range the slots have.
    pub fn pinned_within(&self, at: Addr, pages: u32) -> u32
        ensures { result ≡ count_by (is_pinned_in at.0 pages) self.now.slots }
    {
        pinned_in(&self.ring, at, pages)
    }

    /// How many locked or pinned pages of a range the slots have.
    pub fn fixed_within(&self, at: Addr, pages: u32) -> u32
        ensures { result ≡ count_by (is_fixed_in at.0 pages) self.now.slots }
    {
        fixed_in(&self.ring, at, pages)
    }

    /// How many pages are locked or pinned once those of a range are locked.
    pub fn locked_with(&self, at: Addr, pages: u32) -> u32
        ensures { result ≡ fixed (range_locked true at.0 pages self.now).slots }
    {
        self.fixed_with(at, pages)
    }

    /// How many pages are locked or pinned once those of a range are pinned.
    pub fn pinned_with(&self, at: Addr, pages: u32) -> u32
        ensures { result ≡ fixed (range_pinned true at.0 pages self.now).slots }
    {
        self.fixed_with(at, pages)
    }

    /// How many pages are locked or pinned once those of a range are: either way it is the same.
    fn fixed_with(&self, at: Addr, pages: u32) -> u32
        ensures locked { result ≡ fixed (range_locked true at.0 pages self.now).slots }
        ensures pinned { result ≡ fixed (range_pinned true at.0 pages self.now).slots }
    {
        self.ring.locked() + count_in(&self.ring, at, pages) - fixed_in(&self.ring, at, pages)
    }

    /// Whether the slot holds a pinned page; a slot that isn't there doesn't.
    pub fn is_pinned(&self, slot: u32) -> bool
        ensures { result ≡ is_pinned_slot (slot_of (slice_get self.now.slots slot)) }
    {
        slot < self.ring.slots() && self.ring.pinned(slot)
    }

    /// What the slot holds; a slot that isn't there holds nothing.
    pub fn at(&self, slot: u32) -> Option<Held>
        ensures { result ≡ slot_of (slice_get self.now.slots slot) }
    {
        if slot >= self.ring.slots() {
            return None;
        }
        Some(Held {
            vpn: self.ring.at(slot)?,
            locked: self.ring.is_locked(slot),
            pinned: self.ring.pinned(slot),
        })
    }

    /// The slot of a page, or how many slots there are.
    pub fn slot_with(&self, vpn: u32) -> u32
        ensures { result ≡ slot_with self.now vpn }
    {
        slot_of(&self.ring, vpn)
    }

    /// The slot for one more page at this limit: below the limit the first empty one from the hand on,
    /// else the first whose page is neither locked nor pinned.
    pub fn choose(&self, limit: u32) -> Choice
        ensures chosen { result ≡ choose self.now limit }
        ensures within { IsWithin (length self.now.slots) result }
    {
        let slots = self.ring.slots();
        if slots < limit && self.ring.count() == slots {
            return Choice::AllLocked;
        }
        self.ring.choose(limit.min(slots))
    }

    /// Puts a page into the slot that is offered below the limit; the hand goes on.
    pub fn place(&mut self, limit: u32, vpn: u32)
        ensures { self.new ≡ placed self.old limit vpn }
    {
        let limit = limit.min(self.ring.slots());
        if self.ring.count() < limit {
            take_slot(&mut self.ring, limit, vpn);
        }
    }

    /// Puts a page into a slot, if that is there.
    pub fn put(&mut self, slot: u32, vpn: u32)
        ensures { self.new ≡ slotted self.old slot vpn }
    {
        if slot < self.ring.slots() {
            self.ring.clear(slot, false);
            self.ring.place(slot, vpn, false);
        }
    }

    /// A page leaves the ring.
    pub fn evict(&mut self, why: EvictWhy, limit: u32, vpn: u32)
        ensures { self.new ≡ evicted_ring why self.old limit vpn }
    {
        match why {
            EvictWhy::Replace => {
                let slot = victim(self.choose(limit));
                self.ring.clear(slot, true);
            }
            EvictWhy::Purge | EvictWhy::Delete | EvictWhy::Leave | EvictWhy::Rundown => {
                let slot = slot_of(&self.ring, vpn);
                if slot < self.ring.slots() {
                    self.ring.clear(slot, false);
                }
            }
        }
    }

    /// Unlocks each page.
    pub fn unlock_all(&mut self)
        ensures { self.new ≡ unlocked self.old }
    {
        unlock_all(&mut self.ring);
    }

    /// Locks the pages of a range, or unlocks them.
    pub fn lock_range(&mut self, lock: bool, at: Addr, pages: u32)
        ensures { self.new ≡ range_locked lock at.0 pages self.old }
    {
        lock_range(&mut self.ring, at, pages, lock);
    }

    /// Pins the pages of a range, or unpins them.
    pub fn pin_range(&mut self, pin: bool, at: Addr, pages: u32)
        ensures { self.new ≡ range_pinned pin at.0 pages self.old }
    {
        pin_range(&mut self.ring, at, pages, pin);
    }
}
