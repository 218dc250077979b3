//! Answers to services by the parts, and the services that lock and pin.

ghost use Rattle.std.specs.Prelude.{◌≡◌, ◌≤◌, true, false, Some, length};
ghost use Rattle.std.specs.List.{list_any};
ghost use Rattle.vm_types.specs.declared.limits.TheConstants.{MOST_EXTENT};
ghost use Rattle.vm_types.specs.WellFormed.{IsRange, IsWellFormedService};
ghost use Rattle.pager_model.specs.Forget.{range_of};
ghost use Rattle.pager_model.specs.Ring.{range_locked, range_pinned};
ghost use Rattle.state_fits.specs.Serving.{pin_service};
ghost use Rattle.state_pages.specs.Locking.{lock_service};
ghost use Rattle.state_pages.specs.ServiceAnswers.{has_entry, limit_answer, lock_answer, service_answer, some_entry};

use crate::shown::entry_in;
use page_tables::Tables;
use state_parts::{count_in, fixed_in, locked_in, pinned_in};
use vm_types::{Addr, Answer, PAGE_BYTES, Proc, ProcSpec, Service};
use working_set::Ring;

/// Whether a page number of a process has an entry, if `mapped`, or else whether it has none.
fn has_entry(tables: &Tables, p: Proc, mapped: bool, vpn: u32) -> bool
    ensures { result ≡ has_entry tables.now p.0 mapped vpn }
{
    let is_there = entry_in(tables.look(p, vpn)).is_some();
    if mapped { is_there } else { !is_there }
}

/// Whether some page of a range of a process has an entry, if `mapped`, or else whether some has none.
fn some_entry(tables: &Tables, p: Proc, mapped: bool, at: Addr, pages: u32) -> bool
    requires { IsRange at.0 pages }
    ensures { result ≡ list_any (has_entry tables.now p.0 mapped) (range_of at.0 pages) }
{
    let first = at.0 / PAGE_BYTES;
    for n in 0..pages {
        if has_entry(tables, p, mapped, first + n) {
            return true;
        }
    }
    false
}

/// The answer to a lock, or a pin, of a range that is mapped.
fn lock_answer(ring: &Ring, spec: &ProcSpec, at: Addr, pages: u32) -> Answer
    requires slots { length ring.now.slots ≤ MOST_EXTENT }
    requires locks { spec.now.locks ≤ MOST_EXTENT }
    ensures locked { result ≡ lock_answer ring.now (range_locked true at.0 pages ring.now) at.0 pages (Some spec.now) }
    ensures pinned { result ≡ lock_answer ring.now (range_pinned true at.0 pages ring.now) at.0 pages (Some spec.now) }
{
    let count = count_in(ring, at, pages);
    let locked = ring.locked() + count;
    if locked > spec.locks + fixed_in(ring, at, pages) {
        Answer::LockLimit
    } else {
        Answer::Count(count)
    }
}

/// The answer to an adjustment of a limit.
fn limit_answer(spec: &ProcSpec, limit: u32) -> Answer
    requires { spec.now.locks ≤ MOST_EXTENT }
    ensures { result ≡ limit_answer limit (Some spec.now) }
{
    if limit >= spec.locks + 2 && limit <= spec.extent {
        Answer::Good
    } else {
        Answer::BadLimit
    }
}

/// The answer to a service of a process, by its entries, its working set and what it may have: its
/// first refusal that applies, or what it does.
pub fn service_answer(tables: &Tables, ring: &Ring, spec: &ProcSpec, p: Proc, s: Service) -> Answer
    requires service { IsWellFormedService s }
    requires slots { length ring.now.slots ≤ MOST_EXTENT }
    requires locks { spec.now.locks ≤ MOST_EXTENT }
    ensures { result ≡ service_answer (some_entry tables.now p.0 true) (some_entry tables.now p.0 false) ring.now (Some spec.now) s }
{
    match s {
        Service::Create { at, pages, .. } => {
            if some_entry(tables, p, true, at, pages) {
                Answer::InUse
            } else {
                Answer::Good
            }
        }
        Service::Delete { at, pages } | Service::Protect { at, pages, .. } => {
            if some_entry(tables, p, false, at, pages) {
                Answer::Unmapped
            } else {
                Answer::Good
            }
        }
        Service::Lock { at, pages } => {
            if some_entry(tables, p, false, at, pages) {
                Answer::Unmapped
            } else {
                lock_answer(ring, spec, at, pages)
            }
        }
        Service::Unlock { at, pages } => {
            if some_entry(tables, p, false, at, pages) {
                Answer::Unmapped
            } else {
                Answer::Count(locked_in(ring, at, pages))
            }
        }
        Service::Pin { at, pages } => {
            if some_entry(tables, p, false, at, pages) {
                Answer::Unmapped
            } else {
                lock_answer(ring, spec, at, pages)
            }
        }
        Service::Unpin { at, pages } => {
            if some_entry(tables, p, false, at, pages) {
                Answer::Unmapped
            } else {
                Answer::Count(pinned_in(ring, at, pages))
            }
        }
        Service::Purge { .. } => Answer::Good,
        Service::Adjust { limit } => limit_answer(spec, limit),
    }
}

/// The service that locks, or unlocks, a range.
pub fn lock_service(lock: bool, at: Addr, pages: u32) -> Service
    ensures { result ≡ lock_service lock at pages }
{
    if lock {
        Service::Lock { at, pages }
    } else {
        Service::Unlock { at, pages }
    }
}

/// The service that pins, or unpins, the pages of a range.
pub fn pin_service(pin: bool, at: Addr, pages: u32) -> Service
    ensures { result ≡ pin_service pin at pages }
{
    if pin {
        Service::Pin { at, pages }
    } else {
        Service::Unpin { at, pages }
    }
}
