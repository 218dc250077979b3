//! What is read off the tables.
#![tactic(auto, unfolding(crate::specs::Shown::shown))]

ghost use Rattle.std.specs.Prelude.{◌≡◌, ◌<◌, ◌↔◌, IsTrue, count_by, length, slice_get};
ghost use Rattle.vm_types.specs.Ring.{is_pinned_slot};
ghost use Rattle.pager_model.specs.Lookups.{IsHead, block_of, count_page, entries_at, entry_of, is_owner, page_by, shares, slot_of, slot_with};
ghost use Rattle.pager_model.specs.Report.{pins_on};
ghost use Rattle.pager_model.specs.Sets.{has_page};
ghost use Rattle.shadow_pager.specs.Shown.{at_or};

use crate::shadow_pager::ShadowPager;
use shadow_tables::{Behind, Ring, ValidEntry, page_behind};
use vm_types::{BlockId, Config, FrameState, Page, Pfn, Proc, ProcStatus, page_place};

impl ShadowPager {
    ghost use Rattle.shadow_pager.specs.Shown.{shown};

    /// The state of a frame; one that isn't there is bad.
    pub fn state(&self, f: Pfn) -> FrameState
        ensures { result ≡ (shown self.now).pager.state f.0 }
    {
        at_or(&self.states, f.0, FrameState::Bad)
    }

    /// The page that a frame holds.
    pub fn page(&self, f: Pfn) -> Option<Page>
        ensures { result ≡ (shown self.now).pager.page f.0 }
    {
        self.held.at(f.0 as usize)
    }

    /// Whether a frame's modify mark is set.
    pub fn is_modified(&self, f: Pfn) -> bool
        ensures { result ≡ (shown self.now).pager.modify f.0 }
    {
        at_or(&self.marks, f.0, false)
    }

    /// Whether a frame heads the free list.
    pub fn heads_free(&self, f: Pfn) -> bool
        ensures { IsTrue result ↔ IsHead (shown self.now).pager.free f.0 }
    {
        heads(self.free_head(), f)
    }

    /// The frame that heads the free list, if one is on it.
    pub fn free_head(&self) -> Option<u32>
        ensures { result ≡ slice_get (shown self.now).pager.free 0 }
    {
        self.free.head()
    }

    /// The frame that heads the modified list, if one is on it.
    pub fn modified_head(&self) -> Option<u32>
        ensures { result ≡ slice_get (shown self.now).pager.modified 0 }
    {
        self.modified.first().copied()
    }

    /// Whether a frame heads the modified list.
    pub fn heads_modified(&self, f: Pfn) -> bool
        ensures { IsTrue result ↔ IsHead (shown self.now).pager.modified f.0 }
    {
        heads(self.modified_head(), f)
    }

    /// How many frames are free.
    pub fn free_frames(&self) -> usize
        ensures { result ≡ length (shown self.now).pager.free }
    {
        self.free.len()
    }

    /// How many frames are modified.
    pub fn modified_frames(&self) -> usize
        ensures { result ≡ length (shown self.now).pager.modified }
    {
        self.modified.len()
    }

    /// The status of a process.
    pub fn status(&self, p: Proc) -> ProcStatus
        ensures { result ≡ (shown self.now).pager.status p.0 }
    {
        at_or(&self.statuses, p.0, ProcStatus::Resident)
    }

    /// The working set limit of a process.
    pub fn limit_of(&self, p: Proc) -> u32
        ensures { result ≡ (shown self.now).pager.limit p.0 }
    {
        at_or(&self.limits, p.0, 0)
    }

    /// A process's references since its limit was last adjusted.
    pub fn references(&self, p: Proc) -> u64
        ensures { result ≡ (shown self.now).pager.references p.0 }
    {
        at_or(&self.references, p.0, 0)
    }

    /// A process's faults since its limit was last adjusted.
    pub fn faults(&self, p: Proc) -> u64
        ensures { result ≡ (shown self.now).pager.faults p.0 }
    {
        at_or(&self.faults, p.0, 0)
    }

    /// The read that the process's last collision named.
    pub fn collided(&self, p: Proc) -> Option<u64>
        ensures { result ≡ (shown self.now).pager.collided p.0 }
    {
        at_or(&self.collided, p.0, None)
    }

    /// The working set list of a process that is there.
    pub fn ring(&self, p: Proc) -> &Ring
        requires { p.0 < (shown self.now).processes }
        ensures { result.now ≡ (shown self.now).pager.ring p.0 }
    {
        &self.rings[p.0 as usize]
    }

    /// What a page of a process is mapped to.
    pub fn mapping(&self, p: Proc, v: u32) -> Option<Behind>
        ensures { result ≡ (shown self.now).pager.map p.0 v }
    {
        self.pages.get(page_place(p, v)?).copied().flatten()
    }

    /// The page that a process has at a page number.
    pub fn page_of(&self, config: &Config, p: Proc, v: u32) -> Option<Page>
        ensures { result ≡ page_by config.now (shown self.now).pager.map p.0 v }
    {
        Some(page_behind(config, p, v, self.mapping(p, v)?.origin()))
    }

    /// The valid entry of a process for a page.
    pub fn entry(&self, p: Proc, v: u32) -> Option<ValidEntry>
        ensures { result ≡ entry_of (shown self.now).pager.valid p.0 v }
    {
        self.valid.at(p, v)
    }

    /// How many valid entries a process has for a page.
    pub fn entries(&self, p: Proc, v: u32) -> usize
        ensures { result ≡ entries_at (shown self.now).pager.valid p.0 v }
    {
        self.valid.count(p, v)
    }

    /// How many valid entries there are for a frame.
    pub fn shares(&self, f: Pfn) -> usize
        ensures { result ≡ shares (shown self.now).pager.valid f.0 }
    {
        self.valid.of_frame(f).len()
    }

    /// Whether the slot of a process's page is pinned.
    fn is_pinned(&self, p: Proc, v: u32) -> bool
        ensures { result ≡ is_pinned_slot (slot_of (slice_get ((shown self.now).pager.ring p.0).slots (slot_with ((shown self.now).pager.ring p.0) v))) }
    {
        match self.rings.get(p.0 as usize) {
            Some(ring) => ring.is_pinned(ring.slot_with(v)),
            None => false,
        }
    }

    /// How many of these entries have a pinned slot.
    fn pinned(&self, entries: &[ValidEntry]) -> usize
        ensures { result ≡ count_by (λ e. is_pinned_slot (slot_of (slice_get ((shown self.now).pager.ring e.proc).slots (slot_with ((shown self.now).pager.ring e.proc) e.vpn)))) entries.now }
    {
        entries
            .iter()
            .filter(|entry| self.is_pinned(entry.proc(), entry.vpn()))
            .count()
    }

    /// How many pinned slots have a valid entry for a frame.
    pub fn pins(&self, f: Pfn) -> usize
        ensures { result ≡ pins_on (shown self.now).pager f.0 }
    {
        self.pinned(self.valid.of_frame(f))
    }

    /// How many pages are charged.
    pub fn charged_pages(&self) -> usize
        ensures { result ≡ length (shown self.now).pager.charged }
    {
        self.charged.len()
    }

    /// How often a page is charged.
    pub fn charges(&self, page: Page) -> usize
        ensures { result ≡ count_page (shown self.now).pager.charged page }
    {
        self.charged.count(page) as usize
    }

    /// Whether a page is touched.
    pub fn is_touched(&self, page: Page) -> bool
        ensures { result ≡ has_page (shown self.now).pager.touched page }
    {
        self.touched.has(page)
    }

    /// The block in which a page lies.
    pub fn lies(&self, page: Page) -> Option<BlockId>
        ensures { result ≡ (shown self.now).pager.lies page }
    {
        self.lies.at(page)
    }

    /// The page file block that is assigned to a page.
    pub fn block_of(&self, page: Page) -> Option<u32>
        ensures { result ≡ block_of (shown self.now).pager.assigned page }
    {
        self.assigned.of(page)
    }

    /// How many page file blocks are assigned.
    pub fn assigned_blocks(&self) -> usize
        ensures { result ≡ length (shown self.now).pager.assigned }
    {
        self.assigned.len()
    }

    /// To how many pages a block is assigned.
    pub fn owners(&self, block: BlockId) -> usize
        ensures { result ≡ count_by (is_owner block) (shown self.now).pager.assigned }
    {
        self.assigned.owners(block)
    }
}

/// The item of this number, or the other value where there is none.
fn at_or<T: Copy>(items: &[T], n: u32, other: T) -> T
    ensures { result ≡ at_or other items.now n }
{
    items.get(n as usize).copied().unwrap_or(other)
}

/// Whether the head of a list is this frame.
fn heads(head: Option<u32>, f: Pfn) -> bool
    ensures { IsTrue result ↔ (head ≡ Some f.0) }
{
    head == Some(f.0)
}
