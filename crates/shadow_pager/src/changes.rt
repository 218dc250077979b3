//! Changes by which a process gets pages, and of its limit and its status.
#![tactic(auto, unfolding(crate::specs::Shown::shown))]

ghost use Rattle.std.specs.Prelude.{◌≡◌, ◌+◌, ◌<◌, IfOk, OnOk};
ghost use Rattle.pager_model.specs.Collide.{after_collide};
ghost use Rattle.pager_model.specs.Denied.{after_denied};
ghost use Rattle.pager_model.specs.Limit.{after_limit};
ghost use Rattle.pager_model.specs.Turn.{after_turn};
ghost use Rattle.pager_model.specs.Zero.{after_zero, zeroed_page};

use crate::shadow_pager::ShadowPager;
use shadow_tables::page_behind;
use vm_types::{Addr, Config, FrameState, NoMemory, PAGE_BYTES, Page, Pfn, Proc, ProcStatus};

/// One more.
pub(crate) fn more(count: u64) -> Result<u64, NoMemory>
    ensures { IfOk result (λ n. n ≡ count + 1) }
{
    count.checked_add(1).ok_or(NoMemory)
}

impl ShadowPager {
    ghost use Rattle.shadow_pager.specs.Shown.{shown, with_pager};

    /// The page of zeros that a process gets at a page number.
    pub fn zeroed_page(&self, config: &Config, p: Proc, v: u32) -> Page
        ensures { result ≡ zeroed_page config.now p.0 v ((shown self.now).pager.map p.0 v) }
    {
        match self.mapping(p, v) {
            None => Page::Private(p, v),
            Some(behind) => page_behind(config, p, v, behind.origin()),
        }
    }

    /// A demand zero page, or one of a section in the page file, gets its first frame.
    ///
    /// # Errors
    /// `NoMemory` if out of memory or if a count is full; the state is then not to be used again.
    pub fn zero(&mut self, config: &Config, p: Proc, a: Addr, f: Pfn) -> Result<(), NoMemory>
        requires process { p.0 < (shown self.old).processes }
        requires frame { f.0 < (shown self.old).frames }
        ensures { OnOk result (shown self.new ≡ with_pager (shown self.old) (after_zero config.now (shown self.old).pager p.0 a.0 f.0)) }
    {
        let (process, frame) = (p.0 as usize, f.0 as usize);
        let v = a.0 / PAGE_BYTES;
        let page = self.zeroed_page(config, p, v);
        self.faults[process] = more(self.faults[process])?;
        self.valid.put(p, v, f)?;
        self.charged.put(page)?;
        self.states[frame] = FrameState::Active;
        self.held.set(frame, Some(page))?;
        self.marks[frame] = true;
        self.free.remove(f.0);
        self.rings[process].place(self.limits[process], v);
        Ok(())
    }

    /// A fault meets another seat's read, which entry k began.
    pub fn collide(&mut self, p: Proc, k: u64)
        requires { p.0 < (shown self.old).processes }
        ensures { shown self.new ≡ with_pager (shown self.old) (after_collide (shown self.old).pager p.0 k) }
    {
        self.collided[p.0 as usize] = Some(k);
    }

    /// A working set limit is adjusted.
    pub fn limit(&mut self, p: Proc, n: u32)
        requires { p.0 < (shown self.old).processes }
        ensures { shown self.new ≡ with_pager (shown self.old) (after_limit (shown self.old).pager p.0 n) }
    {
        let process = p.0 as usize;
        self.limits[process] = n;
        self.references[process] = 0;
        self.faults[process] = 0;
    }

    /// A process's status changes.
    pub fn turn(&mut self, p: Proc, status: ProcStatus)
        requires { p.0 < (shown self.old).processes }
        ensures { shown self.new ≡ with_pager (shown self.old) (after_turn (shown self.old).pager p.0 status) }
    {
        let process = p.0 as usize;
        self.statuses[process] = status;
        if let ProcStatus::Leaving = status {
            self.rings[process].unlock_all();
        }
    }

    /// A reference is refused.
    ///
    /// # Errors
    /// `NoMemory` if a count is full; the state is then not to be used again.
    pub fn denied(&mut self, p: Proc) -> Result<(), NoMemory>
        requires { p.0 < (shown self.old).processes }
        ensures { OnOk result (shown self.new ≡ with_pager (shown self.old) (after_denied (shown self.old).pager p.0)) }
    {
        let process = p.0 as usize;
        self.references[process] = more(self.references[process])?;
        Ok(())
    }
}
