//! Pages are forgotten.
#![tactic(auto, unfolding(crate::specs::Shown::shown))]

ghost use Rattle.std.specs.Prelude.{◌≡◌, ◌<◌, ◌≤◌, None, Some, IfSome, OnOk, length, nat_lt, position, if◌then◌else◌};
ghost use Rattle.std.specs.List.{position_or_len};
ghost use Rattle.vm_types.specs.declared.limits.TheConstants.{MOST_FRAMES};
ghost use Rattle.vm_types.specs.WellFormed.{IsRange};
ghost use Rattle.vm_types.specs.declared.config.Config.{Config as ConfigValue};
ghost use Rattle.pager_model.specs.Changes.{without_assigned};
ghost use Rattle.pager_model.specs.Forget.{forget_all, forgotten, holder, holds_page, own_pages, range_of};

use crate::shadow_pager::ShadowPager;
use shadow_tables::remove;
use vm_types::{Addr, Config, FrameState, NoMemory, PAGE_BYTES, Page, Proc, is_same_page};

/// Whether a frame that holds this, if anything, holds the page.
fn holds(page: Page, held: Option<Page>) -> bool
    ensures { result ≡ holds_page page held }
{
    match held {
        None => false,
        Some(other) => is_same_page(other, page),
    }
}

/// The place of the first that holds a page, or how many there are.
fn place_of(held: &[Option<Page>], page: Page) -> usize
    ensures { result ≡ position_or_len (holds_page page) held.now }
{
    for (f, other) in held.iter().enumerate() {
        if holds(page, *other) {
            return f;
        }
    }
    held.len()
}

/// The number, if it is below the count.
fn below(number: usize, count: usize) -> Option<u32>
    requires { count ≤ MOST_FRAMES }
    ensures number { result ≡ (if nat_lt number count then Some number else None) }
    ensures within { IfSome result (λ n. n < count) }
{
    if number < count {
        Some(number as u32)
    } else {
        None
    }
}

/// The first frame that holds a page.
fn holder_in(held: &[Option<Page>], page: Page) -> Option<u32>
    requires { length held.now ≤ MOST_FRAMES }
    ensures holds { result ≡ position (holds_page page) held.now }
    ensures within { IfSome result (λ f. f < length held.now) }
{
    below(place_of(held, page), held.len())
}

impl ShadowPager {
    ghost use Rattle.shadow_pager.specs.Shown.{shown, with_pager};
    ghost use Rattle.shadow_pager.specs.Forgetting.{emptied, erased, own_forgotten};

    /// The frame that holds a page.
    pub fn holder(&self, page: Page) -> Option<u32>
        ensures holds { (config : ConfigValue) → config.frames ≡ (shown self.now).frames → result ≡ holder config (shown self.now).pager.page page }
        ensures within { IfSome result (λ f. f < (shown self.now).frames) }
    {
        holder_in(self.held.items(), page)
    }

    /// A frame is emptied and heads the free list.
    fn empty_frame(&mut self, f: u32) -> Result<(), NoMemory>
        requires { f < (shown self.old).frames }
        ensures { OnOk result (shown self.new ≡ with_pager (shown self.old) (emptied (shown self.old).pager (Some f))) }
    {
        let frame = f as usize;
        self.free.remove(f);
        self.free.put(f)?;
        remove(&mut self.modified, f);
        self.states[frame] = FrameState::Free;
        self.held.set(frame, None)?;
        self.marks[frame] = false;
        Ok(())
    }

    /// A frame, if there is one, is emptied and heads the free list.
    fn empty(&mut self, f: Option<u32>) -> Result<(), NoMemory>
        requires { IfSome f (λ n. n < (shown self.old).frames) }
        ensures { OnOk result (shown self.new ≡ with_pager (shown self.old) (emptied (shown self.old).pager f)) }
    {
        match f {
            None => Ok(()),
            Some(f) => self.empty_frame(f),
        }
    }

    /// A page isn't charged or touched any more, lies nowhere, and its block is free.
    fn erase(&mut self, page: Page) -> Result<(), NoMemory>
        ensures { OnOk result (shown self.new ≡ with_pager (shown self.old) (erased (shown self.old).pager page)) }
    {
        self.lies.lay(page, None)?;
        self.charged.remove(page)?;
        self.touched.remove(page)?;
        self.assigned.remove(page)?;
        Ok(())
    }

    /// A page is forgotten.
    fn forget(&mut self, page: Page) -> Result<(), NoMemory>
        ensures { OnOk result ((config : ConfigValue) → config.frames ≡ (shown self.old).frames →
            shown self.new ≡ with_pager (shown self.old) (forgotten config (shown self.old).pager page)) }
    {
        let f = self.holder(page);
        self.empty(f)?;
        self.erase(page)
    }

    /// A page, if it is there and a process's own, is forgotten.
    fn forget_own(&mut self, page: Option<Page>) -> Result<(), NoMemory>
        ensures { OnOk result ((config : ConfigValue) → config.frames ≡ (shown self.old).frames →
            shown self.new ≡ with_pager (shown self.old) (own_forgotten config (shown self.old).pager page)) }
    {
        match page {
            None | Some(Page::Shared(_, _)) => Ok(()),
            Some(Page::Private(p, v)) => self.forget(Page::Private(p, v)),
        }
    }

    /// The private pages of a range are forgotten, in ascending order.
    pub(crate) fn forget_range(
        &mut self,
        config: &Config,
        p: Proc,
        at: Addr,
        pages: u32,
    ) -> Result<(), NoMemory>
        requires frames { config.now.frames ≡ (shown self.old).frames }
        requires range { IsRange at.0 pages }
        ensures { OnOk result (shown self.new ≡ with_pager (shown self.old)
            (forget_all config.now (own_pages config.now (shown self.old).pager.map p.0 (range_of at.0 pages)) (shown self.old).pager)) }
    {
        let first = at.0 / PAGE_BYTES;
        for k in 0..pages {
            let page = self.page_of(config, p, first + k);
            self.forget_own(page)?;
        }
        Ok(())
    }
}
