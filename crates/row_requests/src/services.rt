//! SERVED: a service is answered.

ghost use Rattle.std.specs.Prelude.{◌≡◌, ◌↔◌, ◌⊎◌, ◌<◌, ◌≤◌, IfSome, IsNone, IsTrue, length};
ghost use Rattle.vm_types.specs.declared.limits.TheConstants.{MOST_FRAMES};
ghost use Rattle.vm_types.specs.WellFormed.{IsRange, IsServiceOf, IsWellFormedService};
ghost use Rattle.pager_model.specs.Served.{IsDelete, IsServed, IsServedFault, IsService, may_fail};
ghost use Rattle.log_reasons.specs.ServedReasons.{DeleteFails, ServedFails, ServedFaultFails, ServiceFails};
ghost use Rattle.shadow_pager.specs.Shown.{shown};

use crate::limits::{bad_limit_fails, limit_fails};
use crate::locking::{counted_fails, lock_limit_fails, purge_fails};
use crate::own::own_fails;
use crate::ranges::{
    Range, in_use_fails, mapped_fails, none_flies, none_is_valid, some_unmapped_fails,
    unmapped_fails,
};
use log_reasons::Reason;
use shadow_history::ShadowHistory;
use shadow_pager::ShadowPager;
use vm_types::{Answer, Proc, ProcStatus, Seat, Service, Version};

/// Why a range may not be deleted.
fn delete_fails(past: &ShadowHistory<'_>, pager: &ShadowPager, range: Range) -> Option<Reason>
    requires range { IsRange (range.at).0 range.pages }
    requires frames { (shown pager.now).frames ≤ MOST_FRAMES }
    ensures legal { IsNone result ↔ IsDelete past.now.config past.now.past (shown pager.now).pager (range.process).0 (range.at).0 range.pages }
    ensures said { IfSome result (DeleteFails past.now.config past.now.past (shown pager.now).pager (range.process).0 (range.at).0 range.pages) }
{
    if let Some(reason) = mapped_fails(past.config(), pager, range) {
        return Some(reason);
    }
    if !none_is_valid(pager, range) {
        return Some(Reason::RangePageValid);
    }
    if !none_flies(past, pager, range) {
        return Some(Reason::RangePageInFlight);
    }
    None
}

/// Why a service isn't answered by that it was done, without a count.
fn good_fails(
    past: &ShadowHistory<'_>,
    pager: &ShadowPager,
    process: Proc,
    s: Service,
) -> Option<Reason>
    requires formed { IsWellFormedService s }
    requires process { process.0 < (shown pager.now).processes }
    requires frames { (shown pager.now).frames ≤ MOST_FRAMES }
    ensures legal { IsNone result ↔ IsService past.now.config past.now.past (shown pager.now).pager process.0 s Answer.Good }
    ensures said { IfSome result (ServiceFails past.now.config past.now.past (shown pager.now).pager process.0 s Answer.Good) }
{
    let config = past.config();
    match s {
        Service::Create { at, pages, prot: _ } => {
            unmapped_fails(config, pager, Range { process, at, pages })
        }
        Service::Delete { at, pages } => delete_fails(past, pager, Range { process, at, pages }),
        Service::Protect { at, pages, prot: _ } => {
            mapped_fails(config, pager, Range { process, at, pages })
        }
        Service::Purge { at, pages } => purge_fails(pager, Range { process, at, pages }),
        Service::Adjust { limit } => limit_fails(config, process, limit),
        _ => Some(Reason::NoSuchAnswer),
    }
}

/// Why a service isn't refused for a page of its range that isn't mapped.
fn refused_fails(
    past: &ShadowHistory<'_>,
    pager: &ShadowPager,
    process: Proc,
    s: Service,
) -> Option<Reason>
    requires { IsWellFormedService s }
    ensures legal { IsNone result ↔ IsService past.now.config past.now.past (shown pager.now).pager process.0 s Answer.Unmapped }
    ensures said { IfSome result (ServiceFails past.now.config past.now.past (shown pager.now).pager process.0 s Answer.Unmapped) }
{
    match s {
        Service::Delete { at, pages }
        | Service::Protect { at, pages, prot: _ }
        | Service::Lock { at, pages }
        | Service::Unlock { at, pages }
        | Service::Pin { at, pages }
        | Service::Unpin { at, pages } => {
            some_unmapped_fails(past.config(), pager, Range { process, at, pages })
        }
        Service::Create { .. } | Service::Purge { .. } | Service::Adjust { .. } => {
            Some(Reason::NoSuchAnswer)
        }
    }
}

/// Why a process's service isn't answered so, if not by a failure.
fn service_fails(
    past: &ShadowHistory<'_>,
    pager: &ShadowPager,
    process: Proc,
    s: Service,
    answer: Answer,
) -> Option<Reason>
    requires formed { IsWellFormedService s }
    requires process { process.0 < (shown pager.now).processes }
    requires frames { (shown pager.now).frames ≤ MOST_FRAMES }
    ensures legal { IsNone result ↔ IsService past.now.config past.now.past (shown pager.now).pager process.0 s answer }
    ensures said { IfSome result (ServiceFails past.now.config past.now.past (shown pager.now).pager process.0 s answer) }
{
    match answer {
        Answer::Good => good_fails(past, pager, process, s),
        Answer::Count(n) => counted_fails(past, pager, process, s, n),
        Answer::Unmapped => refused_fails(past, pager, process, s),
        Answer::LockLimit => lock_limit_fails(past, pager, process, s),
        Answer::InUse => match s {
            Service::Create { at, pages, prot: _ } => {
                in_use_fails(past.config(), pager, Range { process, at, pages })
            }
            _ => Some(Reason::NoSuchAnswer),
        },
        Answer::BadLimit => match s {
            Service::Adjust { limit } => bad_limit_fails(past.config(), process, limit),
            _ => Some(Reason::NoSuchAnswer),
        },
        Answer::DiskFault => Some(Reason::NoSuchAnswer),
    }
}

/// Whether the version has the service: no page is pinned or unpinned in version 1.
fn is_of_version(version: Version, s: Service) -> bool
    ensures { IsTrue result ↔ IsServiceOf version s }
{
    match s {
        Service::Pin { .. } | Service::Unpin { .. } => !version.is_first(),
        _ => true,
    }
}

/// Whether the service may meet a failed transfer of a resident process.
fn may_fail(s: Service) -> bool
    ensures { result ≡ may_fail s }
{
    match s {
        Service::Delete { at: _, pages: _ } | Service::Purge { at: _, pages: _ } => true,
        _ => false,
    }
}

/// Why a service isn't refused for a lost carrier.
fn fault_fails(
    past: &ShadowHistory<'_>,
    pager: &ShadowPager,
    seat: Seat,
    s: Service,
) -> Option<Reason>
    ensures legal { IsNone result ↔ IsServedFault past.now.config past.now.past (shown pager.now).pager seat.0 s }
    ensures said { IfSome result (ServedFaultFails past.now.config past.now.past (shown pager.now).pager seat.0 s) }
{
    let processes = past.config().procs.items().len();
    if processes <= seat.0 as usize {
        return Some(Reason::NoSuchProcess(processes));
    }
    if !past.has_lost(seat) {
        return Some(Reason::CarrierNotLost);
    }
    if pager.status(Proc(seat.0)) == ProcStatus::Resident && !may_fail(s) {
        return Some(Reason::MayNotFail);
    }
    if !is_of_version(past.config().version, s) {
        return Some(Reason::NotOfVersion);
    }
    None
}

/// Why a service isn't answered so, if it isn't. Doesn't allocate.
pub fn served_fails(
    past: &ShadowHistory<'_>,
    pager: &ShadowPager,
    seat: Seat,
    s: Service,
    answer: Answer,
) -> Option<Reason>
    requires formed { IsWellFormedService s }
    requires processes { (shown pager.now).processes ≡ length past.now.config.procs }
    requires frames { (shown pager.now).frames ≤ MOST_FRAMES }
    ensures legal { IsNone result ↔ IsServed past.now.config past.now.past (shown pager.now).pager seat.0 s answer }
    ensures said { IfSome result (ServedFails past.now.config past.now.past (shown pager.now).pager seat.0 s answer) }
{
    match answer {
        Answer::DiskFault => fault_fails(past, pager, seat, s),
        _ => {
            let p = Proc(seat.0);
            if let Some(reason) = own_fails(past.config(), pager, p) {
                return Some(reason);
            }
            if !is_of_version(past.config().version, s) {
                return Some(Reason::NotOfVersion);
            }
            service_fails(past, pager, p, s, answer)
        }
    }
}
