//! Whether a request may be asked.

ghost use Rattle.std.specs.Prelude.{◌≡◌, ◌↔◌, None, IfSome, IsTrue};
ghost use Rattle.vm_types.specs.WellFormed.{FitsOp, IsCode, IsRange, IsRequestOf, IsServiceOf, IsWellFormedReference, IsWellFormedRequest, IsWellFormedService};
ghost use Rattle.pager_laws.specs.Bodies.{MayBeAdded};
ghost use Rattle.open_pager.specs.Requests.{HasCause};

use crate::faults::AskFault;
use vm_text::bytes_of;
use vm_types::{
    Addr, Config, Op, P0_PAGES, PAGE_BYTES, Ref, Request, Service, Task, Version, Width,
};

/// Whether a value that is written fits its width.
fn fits(op: Op) -> bool
    ensures { IsTrue result ↔ FitsOp op }
{
    match op {
        Op::Read(_) => true,
        Op::Write(width, value) => match width {
            Width::One => value <= 0xff,
            Width::Two => value <= 0xffff,
            Width::Four => true,
        },
        Op::Add(_) => true,
    }
}

/// Whether the address is a multiple of the width, and a value that is written fits it.
fn is_formed_reference(r: Ref) -> bool
    ensures { IsTrue result ↔ IsWellFormedReference r }
{
    r.addr.0 % u32::from(bytes_of(r.op)) == 0 && fits(r.op)
}

/// Whether so many pages from the address on may be mapped.
fn is_range(at: Addr, pages: u32) -> bool
    ensures { IsTrue result ↔ IsRange at.0 pages }
{
    let end = u64::from(at.0) + u64::from(PAGE_BYTES) * u64::from(pages);
    at.0 % PAGE_BYTES == 0
        && 1 <= pages
        && pages <= P0_PAGES
        && (end <= 0x20_0000 || (0x7ff8_0000 <= at.0 && end <= 0x8000_0000))
}

/// Whether it is a protection code, and not the reserved one.
fn is_code(prot: u8) -> bool
    ensures { IsTrue result ↔ IsCode prot }
{
    prot < 16 && prot != 1
}

/// Whether the range may be mapped, and the protection code is one.
fn is_formed_service(s: Service) -> bool
    ensures { IsTrue result ↔ IsWellFormedService s }
{
    match s {
        Service::Create { at, pages, prot } | Service::Protect { at, pages, prot } => {
            is_range(at, pages) && is_code(prot)
        }
        Service::Delete { at, pages }
        | Service::Lock { at, pages }
        | Service::Unlock { at, pages }
        | Service::Purge { at, pages }
        | Service::Pin { at, pages }
        | Service::Unpin { at, pages } => is_range(at, pages),
        Service::Adjust { .. } => true,
    }
}

/// Whether the request is well formed.
fn is_formed(request: Request) -> bool
    ensures { IsTrue result ↔ IsWellFormedRequest request }
{
    match request {
        Request::Reference(r) => is_formed_reference(r),
        Request::Service(s) => is_formed_service(s),
    }
}

/// Whether the version has the service.
fn is_service_of(version: Version, s: Service) -> bool
    ensures { IsTrue result ↔ IsServiceOf version s }
{
    match s {
        Service::Pin { .. } | Service::Unpin { .. } => !version.is_first(),
        Service::Create { .. }
        | Service::Delete { .. }
        | Service::Protect { .. }
        | Service::Lock { .. }
        | Service::Unlock { .. }
        | Service::Purge { .. }
        | Service::Adjust { .. } => true,
    }
}

/// Whether the version has the request.
fn is_of(version: Version, request: Request) -> bool
    ensures { IsTrue result ↔ IsRequestOf version request }
{
    match request {
        Request::Reference(_) => true,
        Request::Service(s) => is_service_of(version, s),
    }
}

/// Why a request can't be asked of this configuration; none if it may be added.
pub fn request_fault(config: &Config, task: Task) -> Option<AskFault>
    ensures fault { IfSome result (HasCause config.now task) }
    ensures none { result ≡ None → MayBeAdded config.now task }
{
    if config.procs.items().len() <= task.proc.0 as usize {
        return Some(AskFault::NoProcess);
    }
    if !is_formed(task.request) {
        return Some(AskFault::NotFormed);
    }
    if !is_of(config.version, task.request) {
        return Some(AskFault::NotOfVersion);
    }
    if config.version.most_requests() as usize <= config.body.len() {
        return Some(AskFault::Full);
    }
    None
}
