//! Frames give up pages, and take them back.
#![tactic(auto, unfolding(crate::specs::Shown::shown))]

ghost use Rattle.std.specs.Prelude.{◌≡◌, ◌<◌, OnOk};
ghost use Rattle.pager_model.specs.Back.{after_any_back, after_back, after_back_coming};
ghost use Rattle.pager_model.specs.Changes.{pushed_if};
ghost use Rattle.pager_model.specs.Evict.{after_evict};
ghost use Rattle.pager_model.specs.Lookups.{is};

use crate::changes::more;
use crate::shadow_pager::ShadowPager;
use shadow_tables::{FrameList, lay_nowhere, remove, slot_lying};
use vm_journal::EvictWhy;
use vm_types::{Addr, FrameState, NoMemory, PAGE_BYTES, Pfn, Proc, ProcStatus};

/// Adds a frame at the end of the free list, where it is to be.
pub(crate) fn push_if(there: bool, list: &mut FrameList, f: Pfn) -> Result<(), NoMemory>
    ensures { OnOk result (list.new ≡ pushed_if there list.old f.0) }
{
    if there {
        list.push(f.0)?;
    }
    Ok(())
}

/// Adds a frame at the end of the modified list, where it is to be.
pub(crate) fn add_if(there: bool, list: &mut Vec<u32>, f: Pfn) -> Result<(), NoMemory>
    ensures { OnOk result (list.new.items ≡ pushed_if there list.old.items f.0) }
{
    if there {
        list.push(f.0)?;
    }
    Ok(())
}

impl ShadowPager {
    ghost use Rattle.shadow_pager.specs.Entering.{in_ring, in_slot};
    ghost use Rattle.shadow_pager.specs.Shown.{shown, with_pager};

    /// The page in a frame becomes valid, in the place that the process's ring has for it.
    pub(crate) fn enter_ring(&mut self, q: Proc, a: Addr, f: Pfn) -> Result<(), NoMemory>
        requires process { q.0 < (shown self.old).processes }
        requires frame { f.0 < (shown self.old).frames }
        ensures { OnOk result (shown self.new ≡ with_pager (shown self.old) (in_ring (shown self.old).pager q.0 a.0 f.0)) }
    {
        let (process, frame) = (q.0 as usize, f.0 as usize);
        let v = a.0 / PAGE_BYTES;
        self.valid.put(q, v, f)?;
        self.states[frame] = FrameState::Active;
        self.rings[process].place(self.limits[process], v);
        Ok(())
    }

    /// The page in a frame becomes valid in this slot, as a modified one that lies nowhere.
    pub(crate) fn enter_slot(&mut self, q: Proc, a: Addr, f: Pfn, slot: u32) -> Result<(), NoMemory>
        requires process { q.0 < (shown self.old).processes }
        requires frame { f.0 < (shown self.old).frames }
        ensures { OnOk result (shown self.new ≡ with_pager (shown self.old) (in_slot (shown self.old).pager q.0 a.0 f.0 slot)) }
    {
        let (process, frame) = (q.0 as usize, f.0 as usize);
        let v = a.0 / PAGE_BYTES;
        self.valid.put(q, v, f)?;
        lay_nowhere(&mut self.lies, self.held.at(frame))?;
        self.states[frame] = FrameState::Active;
        self.marks[frame] = true;
        self.rings[process].put(slot, v);
        Ok(())
    }

    /// A page of a coming process comes back.
    fn back_coming(&mut self, q: Proc, a: Addr, f: Pfn) -> Result<(), NoMemory>
        requires process { q.0 < (shown self.old).processes }
        requires frame { f.0 < (shown self.old).frames }
        ensures { OnOk result (shown self.new ≡ with_pager (shown self.old) (after_back_coming (shown self.old).pager q.0 a.0 f.0)) }
    {
        let slot = slot_lying(&self.lies, self.held.at(f.0 as usize));
        self.free.remove(f.0);
        self.enter_slot(q, a, f, slot)?;
        Ok(())
    }

    /// A page of a process comes back on a fault.
    fn back_faulted(&mut self, q: Proc, a: Addr, f: Pfn) -> Result<(), NoMemory>
        requires process { q.0 < (shown self.old).processes }
        requires frame { f.0 < (shown self.old).frames }
        ensures { OnOk result (shown self.new ≡ with_pager (shown self.old) (after_back (shown self.old).pager q.0 a.0 f.0)) }
    {
        let process = q.0 as usize;
        self.faults[process] = more(self.faults[process])?;
        self.free.remove(f.0);
        remove(&mut self.modified, f.0);
        self.enter_ring(q, a, f)?;
        Ok(())
    }

    /// A page that is still in a frame becomes valid.
    ///
    /// # Errors
    /// `NoMemory` if out of memory or if a count is full; the state is then not to be used again.
    pub fn back(&mut self, q: Proc, a: Addr, f: Pfn) -> Result<(), NoMemory>
        requires process { q.0 < (shown self.old).processes }
        requires frame { f.0 < (shown self.old).frames }
        ensures { OnOk result (shown self.new ≡ with_pager (shown self.old)
            (after_any_back (shown self.old).pager ((shown self.old).pager.status q.0) q.0 a.0 f.0)) }
    {
        match self.status(q) {
            ProcStatus::Coming => self.back_coming(q, a, f),
            ProcStatus::Resident | ProcStatus::Leaving | ProcStatus::Gone => {
                self.back_faulted(q, a, f)
            }
        }
    }

    /// A page leaves a working set, and its frame goes to this state.
    ///
    /// # Errors
    /// `NoMemory` if out of memory; the state is then not to be used again.
    pub fn evict(
        &mut self,
        why: EvictWhy,
        p: Proc,
        a: Addr,
        f: Pfn,
        to: FrameState,
    ) -> Result<(), NoMemory>
        requires process { p.0 < (shown self.old).processes }
        requires frame { f.0 < (shown self.old).frames }
        ensures { OnOk result (shown self.new ≡ with_pager (shown self.old) (after_evict (shown self.old).pager why p.0 a.0 f.0 to)) }
    {
        let process = p.0 as usize;
        let v = a.0 / PAGE_BYTES;
        push_if(is_free(to), &mut self.free, f)?;
        add_if(is_modified(to), &mut self.modified, f)?;
        self.states[f.0 as usize] = to;
        self.rings[process].evict(why, self.limits[process], v);
        self.valid.remove(p, v)?;
        Ok(())
    }
}

/// Whether the state is that of a free frame.
fn is_free(to: FrameState) -> bool
    ensures { result ≡ is FrameState.Free to }
{
    to == FrameState::Free
}

/// Whether the state is that of a frame on the modified list.
fn is_modified(to: FrameState) -> bool
    ensures { result ≡ is FrameState.Modified to }
{
    to == FrameState::Modified
}
