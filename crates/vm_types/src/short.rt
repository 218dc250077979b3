ghost use Rattle.std.specs.Prelude.{◌≡◌, ℕ};
ghost use Rattle.vm_types.specs.Short.{request_by, task_of};
ghost use Rattle.vm_types.specs.declared.reference.Mode.{Mode as AnyMode};
ghost use Rattle.vm_types.specs.declared.service.Request.TheVariants as request;

use crate::config::Task;
use crate::names::{Addr, Proc};
use crate::reference::{Mode, Op, Ref, Width};
use crate::service::{Request, Service};

/// What a request asks for, apart from its numbers.
#[derive(Clone, Copy, Debug, PartialEq, Eq)]
pub(crate) enum Verb {
    Read(Width),
    Write(Width),
    Add,
    /// With its protection code.
    Create(u8),
    Delete,
    /// With its protection code.
    Protect(u8),
    Lock,
    Unlock,
    Purge,
    Pin,
    Unpin,
    Adjust,
}

/// A task in sixteen bytes: its process, the address, the value, the pages or the limit, and three single
/// bytes. What a request doesn't have is zero, or kernel mode.
#[derive(Clone, Copy, Debug, PartialEq, Eq)]
pub(crate) struct Short {
    pub at: u32,
    pub number: u32,
    pub proc: u32,
    pub mode: Mode,
    pub verb: Verb,
}

/// How an operation is kept: the verb, and the value.
fn kept_op(op: Op) -> (Verb, u32)
    ensures { (mode : AnyMode) (at : ℕ) → request_by result.0 mode at result.1 ≡ request.Reference (record { mode = mode; addr = record { 0 = at }; op = op }) }
{
    match op {
        Op::Read(width) => (Verb::Read(width), 0),
        Op::Write(width, value) => (Verb::Write(width), value),
        Op::Add(value) => (Verb::Add, value),
    }
}

/// How a service is kept: the verb, the address, and the pages or the limit.
fn kept_service(service: Service) -> (Verb, u32, u32)
    ensures { (mode : AnyMode) → request_by result.0 mode result.1 result.2 ≡ request.Service service }
{
    match service {
        Service::Create { at, pages, prot } => (Verb::Create(prot), at.0, pages),
        Service::Protect { at, pages, prot } => (Verb::Protect(prot), at.0, pages),
        Service::Delete { at, pages } => (Verb::Delete, at.0, pages),
        Service::Lock { at, pages } => (Verb::Lock, at.0, pages),
        Service::Unlock { at, pages } => (Verb::Unlock, at.0, pages),
        Service::Purge { at, pages } => (Verb::Purge, at.0, pages),
        Service::Pin { at, pages } => (Verb::Pin, at.0, pages),
        Service::Unpin { at, pages } => (Verb::Unpin, at.0, pages),
        Service::Adjust { limit } => (Verb::Adjust, 0, limit),
    }
}

/// A task, to be kept.
pub(crate) fn short_of(task: Task) -> Short
    ensures { task_of result ≡ task }
{
    let proc = task.proc.0;
    match task.request {
        Request::Reference(Ref { mode, addr, op }) => {
            let (verb, number) = kept_op(op);
            Short {
                at: addr.0,
                number,
                proc,
                mode,
                verb,
            }
        }
        Request::Service(service) => {
            let (verb, at, number) = kept_service(service);
            Short {
                at,
                number,
                proc,
                mode: Mode::K,
                verb,
            }
        }
    }
}

/// What is asked for.
fn request_of(s: Short) -> Request
    ensures { result ≡ request_by s.verb s.mode s.at s.number }
{
    let (mode, addr, at, pages) = (s.mode, Addr(s.at), Addr(s.at), s.number);
    let op = match s.verb {
        Verb::Read(width) => Op::Read(width),
        Verb::Write(width) => Op::Write(width, pages),
        Verb::Add => Op::Add(pages),
        Verb::Create(prot) => return Request::Service(Service::Create { at, pages, prot }),
        Verb::Delete => return Request::Service(Service::Delete { at, pages }),
        Verb::Protect(prot) => return Request::Service(Service::Protect { at, pages, prot }),
        Verb::Lock => return Request::Service(Service::Lock { at, pages }),
        Verb::Unlock => return Request::Service(Service::Unlock { at, pages }),
        Verb::Purge => return Request::Service(Service::Purge { at, pages }),
        Verb::Pin => return Request::Service(Service::Pin { at, pages }),
        Verb::Unpin => return Request::Service(Service::Unpin { at, pages }),
        Verb::Adjust => return Request::Service(Service::Adjust { limit: pages }),
    };
    Request::Reference(Ref { mode, addr, op })
}

/// The task that is kept so.
pub(crate) fn task_of(s: Short) -> Task
    ensures { result ≡ task_of s }
{
    Task {
        proc: Proc(s.proc),
        request: request_of(s),
    }
}
