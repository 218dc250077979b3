//! What is read off whole tables.
#![tactic(auto, unfolding(crate::specs::Shown::shown))]

ghost use Rattle.std.specs.Prelude.{◌≡◌, ◌<◌, ◌↔◌, ℕ, Some, IsTrue, length, slice_get};
ghost use Rattle.vm_types.specs.declared.names.Page.{Page as Held};
ghost use Rattle.vm_types.specs.declared.names.BlockId.{BlockId as Block};
ghost use Rattle.pager_model.specs.Maps.{proc};

use crate::shadow_pager::ShadowPager;
use vm_types::{Page, Proc, ProcStatus};

/// Whether no process is coming.
fn none_comes(statuses: &[ProcStatus]) -> bool
    ensures { IsTrue result ↔ ((q : ℕ) → slice_get statuses.now q ≡ Some ProcStatus.Coming → ⊥) }
{
    for status in statuses {
        if *status == ProcStatus::Coming {
            return false;
        }
    }
    true
}

impl ShadowPager {
    ghost use Rattle.shadow_pager.specs.Shown.{shown};

    /// How many frames there are; none that isn't there holds a page.
    pub fn frames(&self) -> usize
        ensures count { result ≡ (shown self.now).frames }
        ensures holds { (f : ℕ) (page : Held) → (shown self.now).pager.page f ≡ Some page → f < result }
    {
        self.states.len()
    }

    /// How many pages are touched.
    pub fn touched_pages(&self) -> usize
        ensures { result ≡ length (shown self.now).pager.touched }
    {
        self.touched.len()
    }

    /// Whether no frame holds the page.
    pub fn is_out(&self, page: Page) -> bool
        ensures { IsTrue result ↔ ((f : ℕ) → (shown self.now).pager.page f ≡ Some page → ⊥) }
    {
        self.held.is_out(page)
    }

    /// Whether no process is coming.
    pub fn none_is_coming(&self) -> bool
        ensures { IsTrue result ↔ ((q : ℕ) → (shown self.now).pager.status q ≡ ProcStatus.Coming → ⊥) }
    {
        none_comes(&self.statuses)
    }

    /// Whether no page lies in a swap block of a process.
    pub fn none_is_swapped(&self, p: Proc) -> bool
        ensures { IsTrue result ↔ ((g : Held) (n : ℕ) → (shown self.now).pager.lies g ≡ Some (Block.Swap (proc p.0) n) → ⊥) }
    {
        self.lies.none_is_swapped(p)
    }
}
