//! What is common to the rows of a resident process's own entries.

ghost use Rattle.std.specs.Prelude.{◌≡◌, ◌↔◌, ◌<◌, IfSome, IsNone, length, slice_get};
ghost use Rattle.vm_types.specs.Ring.{filled};
ghost use Rattle.pager_model.specs.Maps.{is_private};
ghost use Rattle.pager_model.specs.Own.{IsEmptyHead, IsResident};
ghost use Rattle.log_reasons.specs.OwnReasons.{EmptyHeadFails, OwnFails, RoomFails};
ghost use Rattle.shadow_pager.specs.Shown.{shown};

use log_reasons::Reason;
use shadow_pager::ShadowPager;
use vm_types::{Config, Page, Pfn, Proc, ProcSpec, ProcStatus};

/// Why a process isn't there, or isn't resident.
pub fn own_fails(config: &Config, pager: &ShadowPager, p: Proc) -> Option<Reason>
    ensures legal { IsNone result ↔ IsResident config.now (shown pager.now).pager p.0 }
    ensures said { IfSome result (OwnFails config.now (shown pager.now).pager p.0) }
{
    let processes = config.procs.items().len();
    if processes <= p.0 as usize {
        return Some(Reason::NoSuchProcess(processes));
    }
    let status = pager.status(p);
    if status != ProcStatus::Resident {
        return Some(Reason::NotResident(status));
    }
    None
}

/// Why a frame doesn't head the free list, or isn't empty.
pub fn empty_head_fails(pager: &ShadowPager, f: Pfn) -> Option<Reason>
    ensures legal { IsNone result ↔ IsEmptyHead (shown pager.now).pager f.0 }
    ensures said { IfSome result (EmptyHeadFails (shown pager.now).pager f.0) }
{
    if !pager.heads_free(f) {
        return Some(Reason::NotAtFreeHead(pager.free_head()));
    }
    match pager.page(f) {
        Some(page) => Some(Reason::FrameNotEmpty(page)),
        None => None,
    }
}

/// Why a process has no room below its limit.
pub fn room_fails(pager: &ShadowPager, p: Proc) -> Option<Reason>
    requires { p.0 < (shown pager.now).processes }
    ensures legal { IsNone result ↔ (filled ((shown pager.now).pager.ring p.0).slots < (shown pager.now).pager.limit p.0) }
    ensures said { IfSome result (RoomFails (shown pager.now).pager p.0) }
{
    let count = pager.ring(p).filled();
    let limit = pager.limit_of(p);
    if limit <= count {
        return Some(Reason::CountAtLimit(count, limit));
    }
    None
}

/// Whether the page is a process's own.
pub fn is_private(page: Page) -> bool
    ensures { result ≡ is_private page }
{
    match page {
        Page::Private(_, _) => true,
        Page::Shared(_, _) => false,
    }
}

/// The limits of a process, if it is there.
pub(crate) fn spec_of(config: &Config, p: Proc) -> Option<ProcSpec>
    ensures { result ≡ slice_get config.now.procs p.0 }
{
    config.procs.items().get(p.0 as usize).copied()
}
