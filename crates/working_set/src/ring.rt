ghost use Rattle.std.specs.Prelude.{◌≡◌, ℕ, true, false, ◌+◌, ◌%◌, ◌<◌, ◌≤◌, ◌^◌, ◌↔◌, ◌++◌, length, take, drop, position, replicate, slice_set, IfOk, if◌then◌else◌};
ghost use Rattle.vm_types.specs.Ring.{is_empty_slot, is_fixed_slot, is_locked_slot, is_loose_slot, is_pinned_slot};

use crate::held::Held;
use std::alloc::Global;
use std::marker::Model;
use vm_types::{Choice, NoMemory};

/// A working set list: slots, numbered from 0, each empty or with a page, and a hand that stands on
/// one of them. Source: Kenah and Bate, "VAX/VMS Internals and Data Structures", paging dynamics.
#[derive(Debug, Drop)]
pub struct Ring {
    slots: Vec<Option<Held>>,
    hand: u32,
    pages: u32,
    marks: u32,
}

impl Model for Ring {
    ghost use Rattle.std.specs.Prelude.{◌≡◌};
    ghost use Rattle.vm_types.specs.Ring.{Ring as RingOfSlots, filled, fixed};
    ghost use Rattle.working_set.specs.Slots.{IsRing};

    ghost Value = { RingOfSlots };

    ghost view = { λ r. record { slots = r.slots.items; hand = r.hand } };

    ghost invariant = { λ r. (r.pages ≡ filled r.slots.items) × (r.marks ≡ fixed r.slots.items)
        × IsRing (record { slots = r.slots.items; hand = r.hand }) };
}

impl Ring {
    ghost use Rattle.vm_types.specs.Ring.{filled, fixed, choose, slot_after, fresh_slot};
    ghost use Rattle.working_set.specs.Slots.{IsRing, IsEmptySlot, IsFilledSlot, slot_at, page_at, lock_at, pin_at, with_lock, with_pin};
    ghost use Rattle.working_set.specs.Offers.{Offers, OffersNone};

    /// A ring of so many slots (1 at least): each is empty, and the hand stands on slot 0.
    ///
    /// # Errors
    /// `NoMemory` if memory runs out.
    pub fn new(alloc: Global, slots: u32) -> Result<Ring, NoMemory>
        requires { 1 ≤ slots }
        ensures empty { IfOk result (λ r. r ≡ record { slots = replicate slots None; hand = 0 }) }
        ensures ring { IfOk result (λ r. IsRing r) }
    {
        Ok(Ring {
            slots: vec![in alloc; None; slots as usize]?,
            hand: 0,
            pages: 0,
            marks: 0,
        })
    }

    /// The slot for one more page at this limit (at most the number of slots): below the limit the
    /// first empty one from the hand on, going round, else the first whose page is neither locked nor
    /// pinned, if there is one. Looks at each slot once at most.
    pub fn choose(&self, limit: u32) -> Choice
        requires { limit ≤ length self.now.slots }
        ensures chosen { result ≡ choose self.now limit }
        ensures offered { Offers self.now limit result }
        ensures none { (result ≡ Choice.AllLocked) ↔ OffersNone self.now limit }
    {
        if self.pages < limit {
            let places = places_to_empty(&self.slots, self.hand as usize).unwrap();
            return Choice::Empty(self.slot_after(places));
        }
        match places_to_loose(&self.slots, self.hand as usize) {
            Some(places) => Choice::Victim(self.slot_after(places)),
            None => Choice::AllLocked,
        }
    }

    /// Puts a page, by its number (any), into an empty slot, neither locked nor pinned. With `step` the hand goes to
    /// the slot after it, slot 0 after the last.
    #[tactic(auto, using(crate::proofs::Counts::filled_below))]
    pub fn place(&mut self, slot: u32, vpn: u32, step: bool)
        requires { IsEmptySlot self.old slot }
        ensures placed { self.new ≡ record {
          slots = slice_set self.old.slots slot (fresh_slot vpn);
          hand = if step then (slot + 1) % length self.old.slots else self.old.hand;
        } }
        ensures ring { IsRing self.new }
    {
        self.slots[slot as usize] = Some(Held::new(vpn));
        self.pages += 1;
        if step {
            self.hand = round(slot as usize + 1, self.slots.len());
        }
    }

    /// Empties the slot, with its lock and its pin, where it was empty too. With `point` the hand stands on it.
    pub fn clear(&mut self, slot: u32, point: bool)
        requires { slot < length self.old.slots }
        ensures cleared { self.new ≡ record {
          slots = slice_set self.old.slots slot None;
          hand = if point then slot else self.old.hand;
        } }
        ensures ring { IsRing self.new }
    {
        let was = self.slots[slot as usize].take();
        self.pages -= u32::from(was.is_some());
        self.marks -= u32::from(is_fixed(was));
        if point {
            self.hand = slot;
        }
    }

    /// Locks the page in the slot. It may be locked already.
    pub fn lock(&mut self, slot: u32)
        requires { IsFilledSlot self.old slot }
        ensures locked { self.new ≡ with_lock self.old slot true }
        ensures ring { IsRing self.new }
    {
        self.set_lock(slot, true);
    }

    /// Unlocks the page in the slot. It may be unlocked already.
    pub fn unlock(&mut self, slot: u32)
        requires { IsFilledSlot self.old slot }
        ensures unlocked { self.new ≡ with_lock self.old slot false }
        ensures ring { IsRing self.new }
    {
        self.set_lock(slot, false);
    }

    /// How many slots there are: 1 at least.
    pub fn slots(&self) -> u32
        ensures value { result ≡ length self.now.slots }
        ensures ring { IsRing self.now }
    {
        self.slots.len() as u32
    }

    /// How many slots hold a page.
    pub fn count(&self) -> u32
        ensures value { result ≡ filled self.now.slots }
        ensures ring { IsRing self.now }
    {
        self.pages
    }

    /// Pins the page in the slot. It may be pinned already.
    pub fn pin(&mut self, slot: u32)
        requires { IsFilledSlot self.old slot }
        ensures pinned { self.new ≡ with_pin self.old slot true }
        ensures ring { IsRing self.new }
    {
        self.set_pin(slot, true);
    }

    /// Unpins the page in the slot. It may be unpinned already.
    pub fn unpin(&mut self, slot: u32)
        requires { IsFilledSlot self.old slot }
        ensures unpinned { self.new ≡ with_pin self.old slot false }
        ensures ring { IsRing self.new }
    {
        self.set_pin(slot, false);
    }

    /// How many slots hold a page that is locked or pinned.
    pub fn locked(&self) -> u32
        ensures value { result ≡ fixed self.now.slots }
        ensures ring { IsRing self.now }
    {
        self.marks
    }

    /// The number of the page in the slot: none where it is empty.
    pub fn at(&self, slot: u32) -> Option<u32>
        requires { slot < length self.now.slots }
        ensures { result ≡ page_at self.now slot }
    {
        Some(self.slots[slot as usize]?.vpn())
    }

    /// Whether the page in the slot is locked: not where it is empty.
    pub fn is_locked(&self, slot: u32) -> bool
        requires { slot < length self.now.slots }
        ensures { result ≡ lock_at self.now slot }
    {
        is_locked(self.slots[slot as usize])
    }

    /// Whether the page in the slot is pinned: not where it is empty.
    pub fn pinned(&self, slot: u32) -> bool
        requires { slot < length self.now.slots }
        ensures { result ≡ pin_at self.now slot }
    {
        is_pinned(self.slots[slot as usize])
    }

    /// The slot on which the hand stands.
    pub fn hand(&self) -> u32
        ensures value { result ≡ self.now.hand }
        ensures ring { IsRing self.now }
    {
        self.hand
    }

    /// The slot that is so many places after the hand.
    fn slot_after(&self, places: usize) -> u32
        requires { places < length self.now.slots }
        ensures { result ≡ slot_after self.now places }
    {
        if places == 0 {
            return self.hand;
        }
        round(self.hand as usize + places, self.slots.len())
    }

    /// Locks or unlocks the page in the slot.
    fn set_lock(&mut self, slot: u32, lock: bool)
        requires { IsFilledSlot self.old slot }
        ensures locked { self.new ≡ with_lock self.old slot lock }
        ensures ring { IsRing self.new }
    {
        if let Some(held) = self.slots[slot as usize] {
            let new = held.with_lock(lock);
            self.slots[slot as usize] = Some(new);
            self.marks -= u32::from(held.is_fixed());
            self.marks += u32::from(new.is_fixed());
        }
    }

    /// Pins or unpins the page in the slot.
    fn set_pin(&mut self, slot: u32, pin: bool)
        requires { IsFilledSlot self.old slot }
        ensures pinned { self.new ≡ with_pin self.old slot pin }
        ensures ring { IsRing self.new }
    {
        if let Some(held) = self.slots[slot as usize] {
            let new = held.with_pin(pin);
            self.slots[slot as usize] = Some(new);
            self.marks -= u32::from(held.is_fixed());
            self.marks += u32::from(new.is_fixed());
        }
    }
}

/// The slot of a place below twice the number of slots, going round once at most. Doesn't divide.
fn round(place: usize, slots: usize) -> u32
    requires below { place < slots + slots }
    requires few { slots ≤ 2 ^ 32 }
    ensures { result ≡ place % slots }
{
    if place < slots {
        place as u32
    } else {
        (place - slots) as u32
    }
}

/// Whether the slot holds no page.
fn is_empty(slot: Option<Held>) -> bool
    ensures { result ≡ is_empty_slot slot }
{
    slot.is_none()
}

/// Whether the slot holds a locked page.
fn is_locked(slot: Option<Held>) -> bool
    ensures { result ≡ is_locked_slot slot }
{
    slot.is_some_and(Held::is_locked)
}

/// Whether the slot holds a pinned page.
fn is_pinned(slot: Option<Held>) -> bool
    ensures { result ≡ is_pinned_slot slot }
{
    slot.is_some_and(Held::is_pinned)
}

/// Whether the slot holds a page that is locked or pinned.
fn is_fixed(slot: Option<Held>) -> bool
    ensures { result ≡ is_fixed_slot slot }
{
    slot.is_some_and(Held::is_fixed)
}

/// Whether the slot holds a page that is neither locked nor pinned.
fn is_loose(slot: Option<Held>) -> bool
    ensures { result ≡ is_loose_slot slot }
{
    slot.is_some_and(|held| !held.is_fixed())
}

/// How many places from the hand on the first empty slot is.
fn places_to_empty(slots: &[Option<Held>], hand: usize) -> Option<usize>
    requires { hand < length slots.now }
    ensures { result ≡ position is_empty_slot (drop hand slots.now ++ take hand slots.now) }
{
    // Mostly it is the hand's own slot.
    if is_empty(slots[hand]) {
        return Some(0);
    }
    let (front, back) = slots.split_at(hand);
    back.iter().chain(front).position(|slot| is_empty(*slot))
}

/// How many places from the hand on the first page that is neither locked nor pinned is.
fn places_to_loose(slots: &[Option<Held>], hand: usize) -> Option<usize>
    requires { hand < length slots.now }
    ensures { result ≡ position is_loose_slot (drop hand slots.now ++ take hand slots.now) }
{
    // Mostly it is the hand's own slot.
    if is_loose(slots[hand]) {
        return Some(0);
    }
    let (front, back) = slots.split_at(hand);
    back.iter().chain(front).position(|slot| is_loose(*slot))
}
