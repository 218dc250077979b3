//! What the rundown reads: the slots of the processes, and the modified list.
#![tactic(auto, unfolding(crate::specs::Shown::shown))]

ghost use Rattle.std.specs.Prelude.{◌≡◌, ◌≤◌, length, slice_get};
ghost use Rattle.vm_types.specs.declared.limits.TheConstants.{MOST_EXTENT};
ghost use Rattle.pager_model.specs.Lookups.{slot_of};

use crate::shadow_pager::ShadowPager;
use shadow_tables::Held;
use vm_types::Proc;

impl ShadowPager {
    ghost use Rattle.shadow_pager.specs.Shown.{shown};

    /// The modified list, from its head on.
    pub fn modified_list(&self) -> &[u32]
        ensures { result.now ≡ (shown self.now).pager.modified }
    {
        &self.modified
    }

    /// How many slots a process has; one that isn't there has none.
    pub fn slots_of(&self, p: Proc) -> u32
        ensures count { result ≡ length ((shown self.now).pager.ring p.0).slots }
        ensures few { result ≤ MOST_EXTENT }
    {
        match self.rings.get(p.0 as usize) {
            Some(ring) => ring.slots(),
            None => 0,
        }
    }

    /// What a slot of a process holds; one that isn't there holds nothing.
    pub fn held_at(&self, p: Proc, slot: u32) -> Option<Held>
        ensures { result ≡ slot_of (slice_get ((shown self.now).pager.ring p.0).slots slot) }
    {
        match self.rings.get(p.0 as usize) {
            Some(ring) => ring.at(slot),
            None => None,
        }
    }
}
