ghost use Rattle.std.specs.Prelude.{◌≡◌, ◌*◌, ◌≤◌, sum_by};
ghost use Rattle.vm_types.specs.declared.limits.TheConstants.{MOST_EXTENT, MOST_PROCESSES};
ghost use Rattle.vm_types.specs.Configuration.{all_pins};
ghost use Rattle.trace_words.specs.Split.{listed};
ghost use Rattle.trace_words.specs.VerbWords.{verb_of};
ghost use Rattle.trace_words.specs.Words.{words};
ghost use Rattle.trace_lines.specs.Requests.{params_agree, has_frames, frames_bound, unmet, body_line, end_line, asked_by, referred, read_line, reference_line, adjust_line, service_line, made, served, is_word_of, verb_in, by_verb, request_line};
ghost use Rattle.trace_lines.specs.Says.{said};

use crate::breach::{Bound, Breach, Limited, counted, marked, miscounted};
use crate::line::Line;
use crate::lookups::{aligned, process};
use crate::ranges::{bytes_of, coded_range_of, range_of, write_of};
use trace_words::{Access, Cause, OpName, ServiceName, Verb, Words, next_word, verb_of, words_of};
use vm_types::{
    Addr, Config, Mode, Op, Params, Proc, ProcSpec, Ref, Request, Service, Task, Version, Width,
};

fn params_agree(params: &Params) -> bool
    ensures { result ≡ params_agree params.now }
{
    params.lolimit <= params.hilimit
        && params.hilimit <= params.waitlimit
        && params.freelim <= params.freegoal
}

// The pages that these processes may lock together.
fn all_locks(procs: &[ProcSpec]) -> u64
    requires { sum_by (λ spec. spec.locks) procs.now ≤ MOST_PROCESSES * MOST_EXTENT }
    ensures { result ≡ sum_by (λ spec. spec.locks) procs.now }
{
    procs.iter().map(|spec| u64::from(spec.locks)).sum()
}

// The pages that all processes together may pin: in version 1 none.
fn all_pins(config: &Config) -> u64
    requires { sum_by (λ spec. spec.locks) config.now.procs ≤ MOST_PROCESSES * MOST_EXTENT }
    ensures value { result ≡ all_pins config.now }
    ensures few { result ≤ MOST_PROCESSES * MOST_EXTENT }
{
    if config.version.is_first() {
        0
    } else {
        all_locks(config.procs.items())
    }
}

// Whether each process alone has a frame to spare beside the page at hand and the pages that all of them
// may pin.
fn has_frames(config: &Config) -> bool
    requires { sum_by (λ spec. spec.locks) config.now.procs ≤ MOST_PROCESSES * MOST_EXTENT }
    ensures { result ≡ has_frames config.now }
{
    let kept = config.bad.items().len() as u64 + all_pins(config);
    let frames = u64::from(config.frames);
    config
        .procs
        .items()
        .iter()
        .all(|spec| u64::from(spec.extent) + kept + 2 <= frames)
}

// The bound on the frames; the locks count among them in every version but 1.
fn frames_bound(config: &Config) -> Bound
    ensures { result ≡ frames_bound config.now }
{
    if config.version.is_first() {
        Bound::Frames(config.frames)
    } else {
        Bound::FramesAndLocks(config.frames)
    }
}

// The first bound that the parameters and the processes break.
fn unmet(config: &Config) -> Bound
    ensures { result ≡ unmet config.now }
{
    let params = &config.params;
    if params.hilimit < params.lolimit {
        Bound::LoLimit(params.hilimit)
    } else if params.waitlimit < params.hilimit {
        Bound::HiLimit(params.waitlimit)
    } else if params.freegoal < params.freelim {
        Bound::FreeLim(params.freegoal)
    } else {
        frames_bound(config)
    }
}

pub(crate) fn body<'a>(config: &Config, args: &Words<'a>) -> Result<Line<'a>, Breach>
    requires { sum_by (λ spec. spec.locks) config.now.procs ≤ MOST_PROCESSES * MOST_EXTENT }
    ensures { said result ≡ body_line config.now (listed args.now) }
{
    let Words::Zero = args else {
        return Err(miscounted(2, 0, args));
    };
    if config.procs.items().is_empty() {
        return Err(Breach::at_word(1, Cause::Misplaced));
    }
    if !params_agree(&config.params) || !has_frames(config) {
        return Err(Breach::bounded(1, Cause::OutOfRange, unmet(config)));
    }
    Ok(Line::Body)
}

pub(crate) fn end<'a>(args: &Words<'a>) -> Result<Line<'a>, Breach>
    ensures { said result ≡ end_line (listed args.now) }
{
    let Words::Zero = args else {
        return Err(miscounted(2, 0, args));
    };
    Ok(Line::End)
}

fn asked_by<'a>(config: &Config, p: u32, request: Request) -> Result<Line<'a>, Breach>
    ensures { said result ≡ asked_by config.now p request }
{
    let most = config.version.most_requests();
    if config.body.len() >= most as usize {
        let bound = Bound::Most(Limited::Requests, most);
        return Err(Breach::bounded(1, Cause::TooMany, bound));
    }
    Ok(Line::Request(Task {
        proc: Proc(p),
        request,
    }))
}

fn referred<'a>(config: &Config, p: u32, mode: Mode, at: u32, op: Op) -> Result<Line<'a>, Breach>
    ensures { said result ≡ referred config.now p mode at op }
{
    let addr = Addr(at);
    asked_by(config, p, Request::Reference(Ref { mode, addr, op }))
}

fn read<'a>(
    config: &Config,
    x: &[u8],
    mode: Mode,
    width: Width,
    args: &Words,
) -> Result<Line<'a>, Breach>
    ensures { said result ≡ read_line config.now x.now mode width (listed args.now) }
{
    let Words::One(addr) = args else {
        return Err(miscounted(3, 1, args));
    };
    let p = marked(1, Bound::Free, process(config.procs.items(), x))?;
    let bytes = bytes_of(width);
    let at = marked(3, Bound::Multiple(bytes), aligned(bytes, addr))?;
    referred(config, p, mode, at, Op::Read(width))
}

fn reference<'a>(config: &Config, x: &[u8], op: OpName, args: &Words) -> Result<Line<'a>, Breach>
    ensures { said result ≡ reference_line config.now x.now op.mode op.access (listed args.now) }
{
    match op.access {
        Access::Read(width) => read(config, x, op.mode, width, args),
        Access::Write(width) => {
            let w = write_of(config, x, width, args)?;
            referred(config, w.proc, op.mode, w.at, Op::Write(width, w.value))
        }
        Access::Add => {
            let w = write_of(config, x, Width::Four, args)?;
            referred(config, w.proc, op.mode, w.at, Op::Add(w.value))
        }
    }
}

// The service of this name, of what it takes: an address, a count, which is of pages or the limit, and a
// protection.
fn made(name: ServiceName, at: u32, count: u32, prot: u8) -> Service
    ensures { result ≡ made name at count prot }
{
    let (at, pages) = (Addr(at), count);
    match name {
        ServiceName::Create => Service::Create { at, pages, prot },
        ServiceName::Protect => Service::Protect { at, pages, prot },
        ServiceName::Delete => Service::Delete { at, pages },
        ServiceName::Lock => Service::Lock { at, pages },
        ServiceName::Unlock => Service::Unlock { at, pages },
        ServiceName::Purge => Service::Purge { at, pages },
        ServiceName::Pin => Service::Pin { at, pages },
        ServiceName::Unpin => Service::Unpin { at, pages },
        ServiceName::Adjust => Service::Adjust { limit: count },
    }
}

fn served<'a>(config: &Config, p: u32, service: Service) -> Result<Line<'a>, Breach>
    ensures { said result ≡ served config.now p service }
{
    asked_by(config, p, Request::Service(service))
}

fn adjust<'a>(config: &Config, x: &[u8], args: &Words) -> Result<Line<'a>, Breach>
    ensures { said result ≡ adjust_line config.now x.now (listed args.now) }
{
    let Words::One(limit) = args else {
        return Err(miscounted(3, 1, args));
    };
    let p = marked(1, Bound::Free, process(config.procs.items(), x))?;
    let limit = counted(3, limit)?;
    served(config, p, Service::Adjust { limit })
}

fn service<'a>(
    config: &Config,
    x: &[u8],
    name: ServiceName,
    args: &Words,
) -> Result<Line<'a>, Breach>
    ensures { said result ≡ service_line config.now x.now name (listed args.now) }
{
    match name {
        ServiceName::Adjust => adjust(config, x, args),
        ServiceName::Create | ServiceName::Protect => {
            let r = coded_range_of(config, x, args)?;
            served(config, r.proc, made(name, r.at, r.pages, r.prot))
        }
        ServiceName::Delete
        | ServiceName::Lock
        | ServiceName::Unlock
        | ServiceName::Purge
        | ServiceName::Pin
        | ServiceName::Unpin => {
            let r = range_of(config, x, args)?;
            served(config, r.proc, made(name, r.at, r.pages, 0))
        }
    }
}

// Whether the version has the service.
fn is_word_of(version: Version, name: ServiceName) -> bool
    ensures { result ≡ is_word_of version name }
{
    match name {
        ServiceName::Pin | ServiceName::Unpin => !version.is_first(),
        ServiceName::Create
        | ServiceName::Delete
        | ServiceName::Protect
        | ServiceName::Lock
        | ServiceName::Unlock
        | ServiceName::Purge
        | ServiceName::Adjust => true,
    }
}

// The operation or the service of this name, if the version has it.
fn verb_in(version: Version, word: &[u8]) -> Option<Verb>
    ensures { result ≡ verb_in version (verb_of word.now) }
{
    match verb_of(word) {
        None => None,
        Some(Verb::Op(op)) => Some(Verb::Op(op)),
        Some(Verb::Service(name)) => {
            if is_word_of(version, name) {
                Some(Verb::Service(name))
            } else {
                None
            }
        }
    }
}

fn by_verb<'a>(
    config: &Config,
    x: &[u8],
    verb: Option<Verb>,
    args: &Words,
) -> Result<Line<'a>, Breach>
    ensures { said result ≡ by_verb config.now x.now (listed args.now) verb }
{
    match verb {
        None => {
            marked(1, Bound::Free, process(config.procs.items(), x))?;
            Err(Breach::at_word(2, Cause::UnknownWord))
        }
        Some(Verb::Op(op)) => reference(config, x, op, args),
        Some(Verb::Service(name)) => service(config, x, name, args),
    }
}

/// A request of the process of this letter, by the text behind it.
pub(crate) fn request<'a>(config: &Config, x: &[u8], text: &[u8]) -> Result<Line<'a>, Breach>
    ensures { said result ≡ request_line config.now x.now (words text.now) }
{
    let Some((second, rest)) = next_word(text) else {
        return Err(Breach::at_word(2, Cause::Misplaced));
    };
    let args = words_of(rest);
    by_verb(config, x, verb_in(config.version, second), &args)
}
