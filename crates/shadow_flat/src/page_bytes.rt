ghost use Rattle.std.specs.Prelude.{IfOk};
ghost use Rattle.vm_types.specs.Configuration.{IsWellFormed};
ghost use Rattle.vm_types.specs.WellFormed.{IsRange, IsWellFormedReference, IsWellFormedService};
ghost use Rattle.pager_model.specs.Flat.{flat_start};
ghost use Rattle.pager_model.specs.OfConfig.{IsOrigin, MapsRight};
ghost use Rattle.shadow_pager.specs.Shown.{shown};
ghost use Rattle.shadow_flat.specs.Kept.{AnswersAsFlat, AnswersMapped, ChangesAsFlat, IsForgotten, KeepsFlat, kept};

use crate::kept_pages::KeptPages;
use row_requests::refusal;
use shadow_pager::ShadowPager;
use shadow_tables::{Behind, page_behind};
use std::alloc::Global;
use vm_types::{Addr, Config, NoMemory, Origin, PAGE_BYTES, Page, Proc, Ref, Reply, Service, Why};

/// The bytes of the pages that were referred to.
#[derive(Debug, Drop)]
pub struct PageBytes {
    pages: KeptPages,
}

impl PageBytes {
    /// No page was referred to.
    ///
    /// # Errors
    /// `NoMemory` if out of memory.
    pub fn new(alloc: Global, config: &Config) -> Result<PageBytes, NoMemory>
        requires { IsWellFormed config.now }
        ensures { IfOk result (λ b. KeepsFlat config.now (flat_start config.now) (kept b)) }
    {
        let procs = config.procs.items().len();
        Ok(PageBytes {
            pages: KeptPages::new(alloc, procs, config.sections.items())?,
        })
    }

    /// The reply to a reference to a page that is mapped to this and that isn't refused.
    fn answer_mapped(
        &mut self,
        config: &Config,
        p: Proc,
        r: Ref,
        behind: Behind,
    ) -> Result<Reply, NoMemory>
        requires well_formed { IsWellFormedReference r }
        requires origin { IsOrigin config.now behind.origin }
        ensures { AnswersMapped config.now self.old self.new p.0 r behind result }
    {
        let page = page_behind(config, p, r.addr.0 / PAGE_BYTES, behind.origin());
        self.pages.refer(config, page, behind.origin(), r)
    }

    /// The flat machine's reply to a reference of a process, where the pager has the flat machine's maps and touched
    /// pages.
    ///
    /// # Errors
    /// `NoMemory` if the page has no place, or if out of memory; this is then not to be used again.
    pub fn answer(
        &mut self,
        config: &Config,
        pager: &ShadowPager,
        p: Proc,
        r: Ref,
    ) -> Result<Reply, NoMemory>
        requires well_formed { IsWellFormedReference r }
        requires right { MapsRight config.now (shown pager.now).pager.map }
        ensures { AnswersAsFlat config.now (shown pager.now).pager self.old self.new p.0 r result }
    {
        if let Some(why) = refusal(config, pager, p, r) {
            return Ok(Reply::Refused(why));
        }
        match pager.mapping(p, r.addr.0 / PAGE_BYTES) {
            Some(behind) => self.answer_mapped(config, p, r, behind),
            None => Ok(Reply::Refused(Why::Unmapped)),
        }
    }

    /// The private pages of a range of a process are forgotten.
    fn forget(&mut self, p: Proc, at: Addr, pages: u32)
        requires { IsRange at.0 pages }
        ensures { IsForgotten p.0 at.0 pages self.old self.new }
    {
        let first = at.0 / PAGE_BYTES;
        for k in 0..pages {
            self.pages.forget(Page::Private(p, first + k));
        }
    }

    /// Forgets pages as a service of a process that answers Good does: a deletion those of its range that are
    /// private.
    pub fn change(&mut self, p: Proc, s: Service)
        requires { IsWellFormedService s }
        ensures { ChangesAsFlat self.old self.new p.0 s }
    {
        if let Service::Delete { at, pages } = s {
            self.forget(p, at, pages);
        }
    }
}
