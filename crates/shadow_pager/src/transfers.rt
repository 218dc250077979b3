//! Reads and writes begin and land.
#![tactic(auto, unfolding(crate::specs::Shown::shown))]

ghost use Rattle.std.specs.Prelude.{◌≡◌, ◌<◌, ◌&&◌, Some, OnOk, if◌then◌else◌};
ghost use Rattle.pager_model.specs.Flights.{Flight, reading};
ghost use Rattle.pager_model.specs.In.{after_in, after_in_fault, after_in_lying, charged_with};
ghost use Rattle.pager_model.specs.InFail.{after_in_fail};
ghost use Rattle.pager_model.specs.InOk.{after_read, is_first_read};
ghost use Rattle.pager_model.specs.Changes.{settled_to};
ghost use Rattle.pager_model.specs.Out.{after_any_out, after_out, assigned_with};
ghost use Rattle.pager_model.specs.OutLanding.{after_out_fail, after_out_ok, marked};

use crate::changes::more;
use crate::frames::{add_if, push_if};
use crate::shadow_pager::ShadowPager;
use shadow_tables::{AssignedBlocks, PageList, is_of_section, is_own, lay_at, remove, slot_of};
use vm_journal::Role;
use vm_types::{Addr, BlockId, Config, FrameState, NoMemory, PAGE_BYTES, Page, Pfn, Proc};

/// Whether a first read of a copy on reference page was from this block.
fn is_first(page: Option<Page>, block: BlockId) -> bool
    ensures { result ≡ is_first_read page block }
{
    match page {
        None => false,
        Some(page) => is_own(page) && is_of_section(block),
    }
}

/// Charges a private page that isn't charged.
fn charge(charged: &mut PageList, page: Option<Page>) -> Result<(), NoMemory>
    ensures { OnOk result (charged.new ≡ charged_with charged.old page) }
{
    let Some(page) = page else {
        return Ok(());
    };
    if is_own(page) && charged.count(page) == 0 {
        charged.put(page)?;
    }
    Ok(())
}

/// Assigns a page file block to a private page that has none.
fn assign(assigned: &mut AssignedBlocks, page: Option<Page>, block: BlockId) -> Result<(), NoMemory>
    ensures { OnOk result (assigned.new ≡ assigned_with assigned.old page block) }
{
    let (Some(page), BlockId::PageFile(n)) = (page, block) else {
        return Ok(());
    };
    assigned.assign(page, n)
}

impl ShadowPager {
    ghost use Rattle.shadow_pager.specs.Shown.{shown, with_pager};
    ghost use Rattle.shadow_pager.specs.Roles.{IsOfProcess};

    /// A read for a fault begins.
    fn read_faulted(&mut self, config: &Config, q: Proc, a: Addr, f: Pfn) -> Result<(), NoMemory>
        requires process { q.0 < (shown self.old).processes }
        requires frame { f.0 < (shown self.old).frames }
        ensures { OnOk result (shown self.new ≡ with_pager (shown self.old) (after_in_fault config.now (shown self.old).pager q.0 a.0 f.0)) }
    {
        let (process, frame) = (q.0 as usize, f.0 as usize);
        let page = self.page_of(config, q, a.0 / PAGE_BYTES);
        self.faults[process] = more(self.faults[process])?;
        charge(&mut self.charged, page)?;
        self.states[frame] = FrameState::Reading;
        self.held.set(frame, page)?;
        self.free.remove(f.0);
        Ok(())
    }

    /// A read of a page begins that lies in its block.
    fn read_lying(&mut self, f: Pfn, page: Option<Page>) -> Result<(), NoMemory>
        requires { f.0 < (shown self.old).frames }
        ensures { OnOk result (shown self.new ≡ with_pager (shown self.old) (after_in_lying (shown self.old).pager f.0 page)) }
    {
        let frame = f.0 as usize;
        self.states[frame] = FrameState::Reading;
        self.held.set(frame, page)?;
        self.free.remove(f.0);
        Ok(())
    }

    /// A read begins, into a frame.
    ///
    /// # Errors
    /// `NoMemory` if out of memory or if a count is full; the state is then not to be used again.
    pub fn read_begins(&mut self, config: &Config, f: Pfn, role: Role) -> Result<(), NoMemory>
        requires process { IsOfProcess (shown self.old).processes role }
        requires frame { f.0 < (shown self.old).frames }
        ensures { OnOk result (shown self.new ≡ with_pager (shown self.old) (after_in config.now (shown self.old).pager f.0 role)) }
    {
        match role {
            Role::Fault(q, a) => self.read_faulted(config, q, a, f),
            Role::Near(page) => self.read_lying(f, Some(page)),
            Role::Come(q, a) => {
                let page = self.page_of(config, q, a.0 / PAGE_BYTES);
                self.read_lying(f, page)
            }
        }
    }

    /// A read for a fault lands.
    fn fault_lands(&mut self, f: Pfn, block: BlockId, q: Proc, a: Addr) -> Result<(), NoMemory>
        requires process { q.0 < (shown self.old).processes }
        requires frame { f.0 < (shown self.old).frames }
        ensures { OnOk result (shown self.new ≡ with_pager (shown self.old) (after_read (shown self.old).pager f.0 block (reading (Role.Fault q a)))) }
    {
        let frame = f.0 as usize;
        self.marks[frame] = is_first(self.held.at(frame), block);
        self.enter_ring(q, a, f)?;
        Ok(())
    }

    /// A read for a page of a process that comes back lands.
    fn come_lands(&mut self, f: Pfn, block: BlockId, q: Proc, a: Addr) -> Result<(), NoMemory>
        requires process { q.0 < (shown self.old).processes }
        requires frame { f.0 < (shown self.old).frames }
        ensures { OnOk result (shown self.new ≡ with_pager (shown self.old) (after_read (shown self.old).pager f.0 block (reading (Role.Come q a)))) }
    {
        self.enter_slot(q, a, f, slot_of(Some(block)))?;
        Ok(())
    }

    /// A read of a neighbour lands.
    fn near_lands(&mut self, f: Pfn, block: BlockId, near: Page) -> Result<(), NoMemory>
        requires { f.0 < (shown self.old).frames }
        ensures { OnOk result (shown self.new ≡ with_pager (shown self.old) (after_read (shown self.old).pager f.0 block (reading (Role.Near near)))) }
    {
        self.free.push(f.0)?;
        self.states[f.0 as usize] = FrameState::Free;
        Ok(())
    }

    /// A read of a block into a frame lands well.
    ///
    /// # Errors
    /// `NoMemory` if out of memory; the state is then not to be used again.
    pub fn read_lands(&mut self, f: Pfn, block: BlockId, role: Role) -> Result<(), NoMemory>
        requires process { IsOfProcess (shown self.old).processes role }
        requires frame { f.0 < (shown self.old).frames }
        ensures { OnOk result (shown self.new ≡ with_pager (shown self.old) (after_read (shown self.old).pager f.0 block (reading role))) }
    {
        match role {
            Role::Fault(q, a) => self.fault_lands(f, block, q, a),
            Role::Near(page) => self.near_lands(f, block, page),
            Role::Come(q, a) => self.come_lands(f, block, q, a),
        }
    }

    /// A read into a frame lands badly.
    pub fn read_fails(&mut self, f: Pfn)
        requires { f.0 < (shown self.old).frames }
        ensures { shown self.new ≡ with_pager (shown self.old) (after_in_fail (shown self.old).pager f.0) }
    {
        self.states[f.0 as usize] = FrameState::ReadError;
    }

    /// A write of a listed frame begins.
    fn write_listed(&mut self, f: Pfn, block: BlockId) -> Result<(), NoMemory>
        requires { f.0 < (shown self.old).frames }
        ensures { OnOk result (shown self.new ≡ with_pager (shown self.old) (after_out (shown self.old).pager f.0 block)) }
    {
        let frame = f.0 as usize;
        assign(&mut self.assigned, self.held.at(frame), block)?;
        self.states[frame] = FrameState::Writing;
        self.marks[frame] = false;
        remove(&mut self.modified, f.0);
        Ok(())
    }

    /// A write of a frame to a block begins.
    ///
    /// # Errors
    /// `NoMemory` if out of memory; the state is then not to be used again.
    pub fn write_begins(&mut self, f: Pfn, block: BlockId) -> Result<(), NoMemory>
        requires { f.0 < (shown self.old).frames }
        ensures { OnOk result (shown self.new ≡ with_pager (shown self.old) (after_any_out (shown self.old).pager f.0 block)) }
    {
        match block {
            BlockId::Swap(_, _) => {
                self.marks[f.0 as usize] = false;
                Ok(())
            }
            BlockId::Section(_, _) | BlockId::PageFile(_) => self.write_listed(f, block),
        }
    }

    /// A write of a frame to a block lands well.
    ///
    /// # Errors
    /// `NoMemory` if out of memory; the state is then not to be used again.
    pub fn write_lands(&mut self, f: Pfn, block: BlockId) -> Result<(), NoMemory>
        requires { f.0 < (shown self.old).frames }
        ensures { OnOk result ((x : Flight) → x.block ≡ block →
            shown self.new ≡ with_pager (shown self.old) (after_out_ok (shown self.old).pager f.0 (Some x))) }
    {
        let frame = f.0 as usize;
        let unshared = self.shares(f) == 0;
        let modified = self.marks[frame];
        push_if(both(unshared, !modified), &mut self.free, f)?;
        add_if(both(unshared, modified), &mut self.modified, f)?;
        lay_at(&mut self.lies, modified, self.held.at(frame), block)?;
        self.states[frame] = landed(unshared, modified, self.states[frame]);
        Ok(())
    }

    /// Sets the modify mark of a frame.
    fn mark(&mut self, f: Pfn)
        requires { f.0 < (shown self.old).frames }
        ensures { shown self.new ≡ with_pager (shown self.old) (marked (shown self.old).pager f.0) }
    {
        self.marks[f.0 as usize] = true;
    }

    /// A write of a frame to a block lands badly.
    ///
    /// # Errors
    /// `NoMemory` if out of memory; the state is then not to be used again.
    pub fn write_fails(&mut self, f: Pfn, block: BlockId) -> Result<(), NoMemory>
        requires { f.0 < (shown self.old).frames }
        ensures { OnOk result ((x : Flight) → x.block ≡ block →
            shown self.new ≡ with_pager (shown self.old) (after_out_fail (shown self.old).pager f.0 (Some x))) }
    {
        self.mark(f);
        self.write_lands(f, block)
    }
}

/// Whether both are true.
fn both(one: bool, other: bool) -> bool
    ensures { result ≡ (one && other) }
{
    one && other
}

/// The state of a frame after a write: one that no entry shares settles.
fn landed(unshared: bool, modified: bool, state: FrameState) -> FrameState
    ensures { result ≡ (if unshared then settled_to modified else state) }
{
    if !unshared {
        state
    } else if modified {
        FrameState::Modified
    } else {
        FrameState::Free
    }
}
