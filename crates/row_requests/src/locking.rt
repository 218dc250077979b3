//! How many pages of a range are locked, pinned, or purged, and which answers that makes legal.

ghost use Rattle.std.specs.Prelude.{◌≡◌, ◌↔◌, ◌⊎◌, ◌<◌, ◌≤◌, Some, IfSome, IsNone, count_by, length, slice_get};
ghost use Rattle.vm_types.specs.WellFormed.{IsRange, IsWellFormedService};
ghost use Rattle.vm_types.specs.Ring.{fixed as fixed_pages};
ghost use Rattle.vm_types.specs.declared.config.ProcSpec.{ProcSpec as AnySpec};
ghost use Rattle.vm_types.specs.declared.reply.Answer.{Answer};
ghost use Rattle.pager_model.specs.Served.{AreMapped, IsLocking, IsOverLocking, IsService, is_fixed_in, is_slot_in};
ghost use Rattle.log_reasons.specs.ServedReasons.{CountFails, LockingFails, LocksFail, MappedFails, OverFails, OverLockingFails, PurgeFails, ServiceFails};
ghost use Rattle.shadow_pager.specs.Shown.{shown};
ghost use Rattle.row_requests.specs.Marks.{is_marked_in, range_marked};

use crate::own::spec_of;
use crate::ranges::{Range, mapped_fails};
use log_reasons::Reason;
use shadow_history::ShadowHistory;
use shadow_pager::ShadowPager;
use shadow_tables::Ring;
use vm_types::{Config, Proc, Service};

/// How a page is kept in a working set: locked there, or pinned in memory.
#[derive(Clone, Copy)]
enum Mark {
    Lock,
    Pin,
}

/// Why the process, if it is there, may not have so many pages locked or pinned.
fn locks_fail(config: &Config, p: Proc, fixed: u32) -> Option<Reason>
    ensures legal { IsNone result ↔ ((spec : AnySpec) → slice_get config.now.procs p.0 ≡ Some spec → fixed ≤ spec.locks) }
    ensures said { IfSome result (LocksFail config.now p.0 fixed) }
{
    let spec = spec_of(config, p)?;
    if spec.locks < fixed {
        return Some(Reason::OverLocks(fixed, spec.locks));
    }
    None
}

/// Why it isn't so that the process is there, and may not have so many pages locked or pinned.
fn over_fails(config: &Config, p: Proc, fixed: u32) -> Option<Reason>
    ensures legal { IsNone result ↔ ((spec : AnySpec) × (slice_get config.now.procs p.0 ≡ Some spec) × (spec.locks < fixed)) }
    ensures said { IfSome result (OverFails config.now p.0 fixed) }
{
    match spec_of(config, p) {
        None => Some(Reason::NoSuchProcess(config.procs.items().len())),
        Some(spec) => {
            if spec.locks < fixed {
                return None;
            }
            Some(Reason::WithinLocks(fixed, spec.locks))
        }
    }
}

/// Why a count of pages isn't the right one.
fn count_fails(right: u32, n: u32) -> Option<Reason>
    ensures legal { IsNone result ↔ (n ≡ right) }
    ensures said { IfSome result (CountFails right n) }
{
    if n != right {
        return Some(Reason::WrongPageCount(right));
    }
    None
}

/// How many pages of a ring are locked or pinned if those of a range get the mark.
fn fixed_with(ring: &Ring, mark: Mark, range: Range) -> u32
    ensures { result ≡ fixed_pages (range_marked mark (range.at).0 range.pages ring.now).slots }
{
    match mark {
        Mark::Lock => ring.locked_with(range.at, range.pages),
        Mark::Pin => ring.pinned_with(range.at, range.pages),
    }
}

/// How many pages of a range have the mark.
fn marked_within(ring: &Ring, mark: Mark, range: Range) -> u32
    ensures { result ≡ count_by (is_marked_in mark (range.at).0 range.pages) ring.now.slots }
{
    match mark {
        Mark::Lock => ring.locked_within(range.at, range.pages),
        Mark::Pin => ring.pinned_within(range.at, range.pages),
    }
}

/// Why the valid pages of a range don't get the mark, or aren't so many.
fn mark_fails(
    config: &Config,
    pager: &ShadowPager,
    mark: Mark,
    range: Range,
    n: u32,
) -> Option<Reason>
    requires range { IsRange (range.at).0 range.pages }
    requires process { (range.process).0 < (shown pager.now).processes }
    ensures legal { IsNone result ↔ IsLocking config.now (shown pager.now).pager (range.process).0 (range.at).0 range.pages (range_marked mark (range.at).0 range.pages ((shown pager.now).pager.ring (range.process).0)) n }
    ensures said { IfSome result (LockingFails config.now (shown pager.now).pager (range.process).0 (range.at).0 range.pages (range_marked mark (range.at).0 range.pages ((shown pager.now).pager.ring (range.process).0)) n) }
{
    let ring = pager.ring(range.process);
    if let Some(reason) = mapped_fails(config, pager, range) {
        return Some(reason);
    }
    if let Some(reason) = locks_fail(config, range.process, fixed_with(ring, mark, range)) {
        return Some(reason);
    }
    count_fails(ring.within(range.at, range.pages), n)
}

/// Why not more pages would be locked or pinned than the process may lock.
fn over_mark_fails(config: &Config, pager: &ShadowPager, mark: Mark, range: Range) -> Option<Reason>
    requires range { IsRange (range.at).0 range.pages }
    requires process { (range.process).0 < (shown pager.now).processes }
    ensures legal { IsNone result ↔ IsOverLocking config.now (shown pager.now).pager (range.process).0 (range.at).0 range.pages (range_marked mark (range.at).0 range.pages ((shown pager.now).pager.ring (range.process).0)) }
    ensures said { IfSome result (OverLockingFails config.now (shown pager.now).pager (range.process).0 (range.at).0 range.pages (range_marked mark (range.at).0 range.pages ((shown pager.now).pager.ring (range.process).0))) }
{
    if let Some(reason) = mapped_fails(config, pager, range) {
        return Some(reason);
    }
    over_fails(
        config,
        range.process,
        fixed_with(pager.ring(range.process), mark, range),
    )
}

/// Why the pages of a range don't lose the mark, or aren't so many.
fn unmark_fails(
    config: &Config,
    pager: &ShadowPager,
    mark: Mark,
    range: Range,
    n: u32,
) -> Option<Reason>
    requires range { IsRange (range.at).0 range.pages }
    requires process { (range.process).0 < (shown pager.now).processes }
    ensures legal { IsNone result ↔ (AreMapped config.now (shown pager.now).pager (range.process).0 (range.at).0 range.pages × (n ≡ count_by (is_marked_in mark (range.at).0 range.pages) ((shown pager.now).pager.ring (range.process).0).slots)) }
    ensures said { IfSome result (λ r. MappedFails config.now (shown pager.now).pager (range.process).0 (range.at).0 range.pages r ⊎ CountFails (count_by (is_marked_in mark (range.at).0 range.pages) ((shown pager.now).pager.ring (range.process).0).slots) n r) }
{
    if let Some(reason) = mapped_fails(config, pager, range) {
        return Some(reason);
    }
    count_fails(marked_within(pager.ring(range.process), mark, range), n)
}

/// Why some valid page of a range is neither locked nor pinned.
pub(crate) fn purge_fails(pager: &ShadowPager, range: Range) -> Option<Reason>
    requires { (range.process).0 < (shown pager.now).processes }
    ensures legal { IsNone result ↔ (count_by (is_slot_in (range.at).0 range.pages) ((shown pager.now).pager.ring (range.process).0).slots ≡ count_by (is_fixed_in (range.at).0 range.pages) ((shown pager.now).pager.ring (range.process).0).slots) }
    ensures said { IfSome result (PurgeFails (shown pager.now).pager (range.process).0 (range.at).0 range.pages) }
{
    let valid = pager.ring(range.process).within(range.at, range.pages);
    let fixed = pager
        .ring(range.process)
        .fixed_within(range.at, range.pages);
    if valid != fixed {
        return Some(Reason::NotPurged(valid, fixed));
    }
    None
}

/// Why a service isn't answered with this count of pages.
pub(crate) fn counted_fails(
    past: &ShadowHistory<'_>,
    pager: &ShadowPager,
    process: Proc,
    s: Service,
    n: u32,
) -> Option<Reason>
    requires formed { IsWellFormedService s }
    requires process { process.0 < (shown pager.now).processes }
    ensures legal { IsNone result ↔ IsService past.now.config past.now.past (shown pager.now).pager process.0 s (Answer.Count n) }
    ensures said { IfSome result (ServiceFails past.now.config past.now.past (shown pager.now).pager process.0 s (Answer.Count n)) }
{
    let config = past.config();
    match s {
        Service::Lock { at, pages } => {
            mark_fails(config, pager, Mark::Lock, Range { process, at, pages }, n)
        }
        Service::Pin { at, pages } => {
            mark_fails(config, pager, Mark::Pin, Range { process, at, pages }, n)
        }
        Service::Unlock { at, pages } => {
            unmark_fails(config, pager, Mark::Lock, Range { process, at, pages }, n)
        }
        Service::Unpin { at, pages } => {
            unmark_fails(config, pager, Mark::Pin, Range { process, at, pages }, n)
        }
        _ => Some(Reason::NoSuchAnswer),
    }
}

/// Why a service isn't refused for the bound on pages that a process may lock.
pub(crate) fn lock_limit_fails(
    past: &ShadowHistory<'_>,
    pager: &ShadowPager,
    process: Proc,
    s: Service,
) -> Option<Reason>
    requires formed { IsWellFormedService s }
    requires process { process.0 < (shown pager.now).processes }
    ensures legal { IsNone result ↔ IsService past.now.config past.now.past (shown pager.now).pager process.0 s Answer.LockLimit }
    ensures said { IfSome result (ServiceFails past.now.config past.now.past (shown pager.now).pager process.0 s Answer.LockLimit) }
{
    let config = past.config();
    match s {
        Service::Lock { at, pages } => {
            over_mark_fails(config, pager, Mark::Lock, Range { process, at, pages })
        }
        Service::Pin { at, pages } => {
            over_mark_fails(config, pager, Mark::Pin, Range { process, at, pages })
        }
        _ => Some(Reason::NoSuchAnswer),
    }
}
