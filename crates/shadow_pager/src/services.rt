//! Services change what pages are mapped to, rings and limits.
#![tactic(auto, unfolding(crate::specs::Shown::shown))]

ghost use Rattle.std.specs.Prelude.{◌≡◌, ℕ, ◌<◌, None, Some, OnOk};
ghost use Rattle.std.specs.Option.{option_map};
ghost use Rattle.vm_types.specs.WellFormed.{IsRange, IsWellFormedService};
ghost use Rattle.vm_types.specs.declared.config.Config.{Config as ConfigValue};
ghost use Rattle.pager_model.specs.FlatService.{demand_zero, with_prot};
ghost use Rattle.pager_model.specs.Forget.{after_delete, remapped};
ghost use Rattle.pager_model.specs.Ring.{range_locked, range_pinned};
ghost use Rattle.pager_model.specs.Served.{after_served, with_limit, with_ring};

use crate::shadow_pager::ShadowPager;
use shadow_tables::{clear_range, protect_range, zero_range};
use vm_types::{Addr, Answer, Config, NoMemory, Proc, Service};

impl ShadowPager {
    ghost use Rattle.shadow_pager.specs.Shown.{shown, with_pager};

    /// The pages of a range are mapped to zeros.
    fn create(&mut self, p: Proc, at: Addr, pages: u32, prot: u8)
        requires process { p.0 < (shown self.old).processes }
        requires range { IsRange at.0 pages }
        ensures { shown self.new ≡ with_pager (shown self.old) (remapped (λ old. Some (demand_zero prot)) p.0 at.0 pages (shown self.old).pager) }
    {
        zero_range(&mut self.pages, p, at, pages, prot);
    }

    /// The pages of a range get a protection code.
    fn protect(&mut self, p: Proc, at: Addr, pages: u32, prot: u8)
        requires process { p.0 < (shown self.old).processes }
        requires range { IsRange at.0 pages }
        ensures { shown self.new ≡ with_pager (shown self.old) (remapped (option_map (with_prot prot)) p.0 at.0 pages (shown self.old).pager) }
    {
        protect_range(&mut self.pages, p, at, pages, prot);
    }

    /// The pages of a range are mapped to nothing.
    fn unmap(&mut self, p: Proc, at: Addr, pages: u32)
        requires process { p.0 < (shown self.old).processes }
        requires range { IsRange at.0 pages }
        ensures { shown self.new ≡ with_pager (shown self.old) (remapped (λ old. None) p.0 at.0 pages (shown self.old).pager) }
    {
        clear_range(&mut self.pages, p, at, pages);
    }

    /// The pages of a range are forgotten, and mapped to nothing.
    fn delete(&mut self, config: &Config, p: Proc, at: Addr, pages: u32) -> Result<(), NoMemory>
        requires process { p.0 < (shown self.old).processes }
        requires frames { config.now.frames ≡ (shown self.old).frames }
        requires range { IsRange at.0 pages }
        ensures { OnOk result (shown self.new ≡ with_pager (shown self.old) (after_delete config.now (shown self.old).pager p.0 at.0 pages)) }
    {
        self.forget_range(config, p, at, pages)?;
        self.unmap(p, at, pages);
        Ok(())
    }

    /// The pages of a range are locked in the ring, or unlocked.
    fn lock(&mut self, p: Proc, lock: bool, at: Addr, pages: u32)
        requires { p.0 < (shown self.old).processes }
        ensures { shown self.new ≡ with_pager (shown self.old)
            (with_ring (shown self.old).pager p.0 (range_locked lock at.0 pages ((shown self.old).pager.ring p.0))) }
    {
        self.rings[p.0 as usize].lock_range(lock, at, pages);
    }

    /// The pages of a range are pinned, or unpinned.
    fn pin(&mut self, p: Proc, pin: bool, at: Addr, pages: u32)
        requires { p.0 < (shown self.old).processes }
        ensures { shown self.new ≡ with_pager (shown self.old)
            (with_ring (shown self.old).pager p.0 (range_pinned pin at.0 pages ((shown self.old).pager.ring p.0))) }
    {
        self.rings[p.0 as usize].pin_range(pin, at, pages);
    }

    /// The limit is set.
    fn adjust(&mut self, p: Proc, limit: u32)
        requires { p.0 < (shown self.old).processes }
        ensures { shown self.new ≡ with_pager (shown self.old) (with_limit (shown self.old).pager p.0 limit) }
    {
        self.limits[p.0 as usize] = limit;
    }

    /// A service is done, with no count.
    fn served_good(&mut self, config: &Config, p: Proc, s: Service) -> Result<(), NoMemory>
        requires process { p.0 < (shown self.old).processes }
        requires frames { config.now.frames ≡ (shown self.old).frames }
        requires service { IsWellFormedService s }
        ensures { OnOk result (shown self.new ≡ with_pager (shown self.old) (after_served config.now (shown self.old).pager p.0 s Answer.Good)) }
    {
        match s {
            Service::Create { at, pages, prot } => {
                self.create(p, at, pages, prot);
                Ok(())
            }
            Service::Delete { at, pages } => self.delete(config, p, at, pages),
            Service::Protect { at, pages, prot } => {
                self.protect(p, at, pages, prot);
                Ok(())
            }
            Service::Adjust { limit } => {
                self.adjust(p, limit);
                Ok(())
            }
            Service::Lock { .. }
            | Service::Unlock { .. }
            | Service::Purge { .. }
            | Service::Pin { .. }
            | Service::Unpin { .. } => Ok(()),
        }
    }

    /// A service is done for so many pages.
    fn served_count(&mut self, p: Proc, s: Service)
        requires { p.0 < (shown self.old).processes }
        ensures { (config : ConfigValue) (n : ℕ) → shown self.new ≡ with_pager (shown self.old) (after_served config (shown self.old).pager p.0 s (Answer.Count n)) }
    {
        match s {
            Service::Lock { at, pages } => self.lock(p, true, at, pages),
            Service::Unlock { at, pages } => self.lock(p, false, at, pages),
            Service::Pin { at, pages } => self.pin(p, true, at, pages),
            Service::Unpin { at, pages } => self.pin(p, false, at, pages),
            Service::Create { .. }
            | Service::Delete { .. }
            | Service::Protect { .. }
            | Service::Purge { .. }
            | Service::Adjust { .. } => {}
        }
    }

    /// A service is answered.
    ///
    /// # Errors
    /// `NoMemory` if out of memory; the state is then not to be used again.
    #[tactic(auto, using(crate::proofs::Answered::refusals), unfolding(crate::specs::Shown::shown))]
    pub fn served(
        &mut self,
        config: &Config,
        p: Proc,
        s: Service,
        answer: Answer,
    ) -> Result<(), NoMemory>
        requires process { p.0 < (shown self.old).processes }
        requires frames { config.now.frames ≡ (shown self.old).frames }
        requires service { IsWellFormedService s }
        ensures { OnOk result (shown self.new ≡ with_pager (shown self.old) (after_served config.now (shown self.old).pager p.0 s answer)) }
    {
        match answer {
            Answer::Good => self.served_good(config, p, s),
            Answer::Count(_) => {
                self.served_count(p, s);
                Ok(())
            }
            Answer::InUse
            | Answer::Unmapped
            | Answer::LockLimit
            | Answer::BadLimit
            | Answer::DiskFault => Ok(()),
        }
    }
}
