//! A frame is emptied, and references and services are answered.
#![tactic(auto, unfolding(crate::specs::Shown::shown))]

ghost use Rattle.std.specs.Prelude.{◌≡◌, ◌<◌, List, Option, Some, OnOk};
ghost use Rattle.std.specs.Option.{option_map};
ghost use Rattle.vm_journal.specs.declared.entry.Entry.{Entry};
ghost use Rattle.pager_model.specs.Done.{after_done, touched_at};
ghost use Rattle.pager_model.specs.Flat.{is_change};
ghost use Rattle.pager_model.specs.Flights.{Flight, failed_flight};
ghost use Rattle.pager_model.specs.Lookups.{entry_of};
ghost use Rattle.pager_model.specs.Maps.{page_number};
ghost use Rattle.pager_model.specs.Pager.{Valid};
ghost use Rattle.pager_model.specs.Reuse.{after_reuse, charged_reused};
ghost use Rattle.pager_model.specs.Sets.{has_page};

use crate::changes::more;
use crate::shadow_pager::ShadowPager;
use shadow_tables::{PageList, is_of_section, is_own, is_paged};
use vm_types::{BlockId, Config, FrameState, NoMemory, Op, PAGE_BYTES, Page, Pfn, Proc, Ref};

/// A copy on reference page whose read from its section block failed is no longer charged.
///
/// # Errors
/// `NoMemory` if out of memory; the list is then not to be used again.
fn uncharge(charged: &mut PageList, page: Page, failed: Option<BlockId>) -> Result<(), NoMemory>
    ensures { OnOk result ((o : Option Flight) → option_map (λ (x : Flight). x.block) o ≡ failed → charged.new ≡ charged_reused o page charged.old) }
{
    if let Some(block) = failed {
        if is_own(page) && is_of_section(block) {
            charged.remove(page)?;
        }
    }
    Ok(())
}

/// Whether an operation changes a page.
fn changes(op: Op) -> bool
    ensures { result ≡ is_change op }
{
    match op {
        Op::Read(_) => false,
        Op::Write(_, _) | Op::Add(_) => true,
    }
}

/// A page that has a block of the page file is touched.
fn touch(config: &Config, touched: &mut PageList, page: Option<Page>) -> Result<(), NoMemory>
    ensures { OnOk result (touched.new ≡ touched_at config.now touched.old page) }
{
    let Some(page) = page else {
        return Ok(());
    };
    if is_paged(config, page) && !touched.has(page) {
        touched.put(page)?;
    }
    Ok(())
}

impl ShadowPager {
    ghost use Rattle.shadow_pager.specs.Shown.{shown, with_pager};

    /// A frame gives up a page; with the block of the read that failed just before, if one did.
    ///
    /// # Errors
    /// `NoMemory` if out of memory; the state is then not to be used again.
    pub fn reuse(&mut self, f: Pfn, page: Page, failed: Option<BlockId>) -> Result<(), NoMemory>
        requires { f.0 < (shown self.old).frames }
        ensures { OnOk result ((past : List Entry) → option_map (λ (x : Flight). x.block) (failed_flight past) ≡ failed →
            shown self.new ≡ with_pager (shown self.old) (after_reuse past (shown self.old).pager f.0 page)) }
    {
        let frame = f.0 as usize;
        self.free.remove(f.0);
        self.free.put(f.0)?;
        uncharge(&mut self.charged, page, failed)?;
        self.states[frame] = FrameState::Free;
        self.held.set(frame, None)?;
        self.marks[frame] = false;
        Ok(())
    }

    /// A reference is answered. The frame of the page's valid entry is there.
    ///
    /// # Errors
    /// `NoMemory` if out of memory or if a count is full; the state is then not to be used again.
    pub fn done(&mut self, config: &Config, p: Proc, r: Ref) -> Result<(), NoMemory>
        requires process { p.0 < (shown self.old).processes }
        requires frame { (e : Valid) → entry_of (shown self.old).pager.valid p.0 (page_number (r.addr).0) ≡ Some e → e.frame < (shown self.old).frames }
        ensures { OnOk result (shown self.new ≡ with_pager (shown self.old) (after_done config.now (shown self.old).pager p.0 r)) }
    {
        let process = p.0 as usize;
        let v = r.addr.0 / PAGE_BYTES;
        let page = self.page_of(config, p, v);
        self.references[process] = more(self.references[process])?;
        touch(config, &mut self.touched, page)?;
        if changes(r.op) {
            if let Some(entry) = self.entry(p, v) {
                self.marks[entry.frame().0 as usize] = true;
            }
        }
        Ok(())
    }
}
