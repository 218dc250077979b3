//! The configuration that the tests of several parts begin with.

ghost use Rattle.std.specs.Prelude.{◌≡◌, ◌≤◌, IfOk, length};
ghost use Rattle.vm_types.specs.Configuration.{IsWellFormed};

use std::alloc::Global;
use vm_types::{
    Addr, Body, Config, Listed, Mapping, Mode, NoMemory, Op, Origin, Params, Proc, ProcSpec, Ref,
    Request, SecId, Section, SectionKind, Task, Version, Width,
};

const PARAMS: Params = Params {
    pfc: 8,
    hilimit: 0,
    lolimit: 0,
    waitlimit: 1,
    wrtcluster: 4,
    freelim: 0,
    freegoal: 0,
    awstime: 0,
    pfrath: 0,
    pfratl: 0,
    wsinc: 0,
    wsdec: 0,
    awsmin: 2,
    borrowlim: 0,
};

const SPEC: ProcSpec = ProcSpec {
    limit: 8,
    quota: 8,
    extent: 8,
    locks: 0,
};

/// A mapping of one page that code 4, all may write, or another protects.
fn mapping(proc: u32, at: u32, from: Origin, prot: u8) -> Mapping
    ensures { result ≡ record { proc = record { 0 = proc }; at = record { 0 = at }; pages = 1; from = from; prot = prot } }
{
    Mapping {
        proc: Proc(proc),
        at: Addr(at),
        pages: 1,
        from,
        prot,
    }
}

/// A read of the byte at 0.
pub(crate) fn read_first() -> Ref
    ensures { result ≡ record { mode = Mode.U; addr = record { 0 = 0 }; op = Op.Read Width.One } }
{
    Ref {
        mode: Mode::U,
        addr: Addr(0),
        op: Op::Read(Width::One),
    }
}

/// A process reads the byte at 0.
fn task(proc: u32) -> Task
    ensures { result ≡ record { proc = record { 0 = proc }; request = Request.Reference (record { mode = Mode.U; addr = record { 0 = 0 }; op = Op.Read Width.One }) } }
{
    Task {
        proc: Proc(proc),
        request: Request::Reference(read_first()),
    }
}

/// Sixteen processes, the first two of which share the first section, whose bytes are 7, and copy the
/// second, whose bytes are 9. The first process also has two pages of zeros at 0 and 512, and one at
/// 2048 that only kernel mode may use; the last process copies the second section too, in the last
/// page of P1. The first two processes read the byte at 0.
pub(crate) fn config(alloc: Global, pagefile: u32) -> Result<Config, NoMemory>
    requires { (1 ≤ pagefile) × (pagefile ≤ 16384) }
    ensures formed { IfOk result IsWellFormed }
    ensures procs { IfOk result (λ config. length config.procs ≡ 16) }
{
    let shared = Section {
        name: Listed::of(vec![in alloc; b'S', b'H']?),
        kind: SectionKind::Shared,
        bytes: Listed::of(Vec::from_slice(alloc, &[7; 512])?),
    };
    let copied = Section {
        name: Listed::of(vec![in alloc; b'C', b'R']?),
        kind: SectionKind::Crf,
        bytes: Listed::of(Vec::from_slice(alloc, &[9; 512])?),
    };
    let first = Origin::Section(SecId(0), 0);
    let second = Origin::Section(SecId(1), 0);
    let mut body = Body::new(alloc);
    body.push(task(0))?;
    body.push(task(1))?;
    Ok(Config {
        version: Version::One,
        frames: 64,
        bad: Listed::new(alloc),
        pagefile,
        params: PARAMS,
        sections: Listed::of(vec![in alloc; shared, copied]?),
        procs: Listed::of(Vec::from_slice(alloc, &[SPEC; 16])?),
        maps: Listed::of(vec![in alloc;
            mapping(0, 0, Origin::Zero, 4),
            mapping(0, 512, Origin::Zero, 4),
            mapping(0, 1024, first, 4),
            mapping(0, 1536, second, 4),
            mapping(0, 2048, Origin::Zero, 2),
            mapping(1, 1024, first, 4),
            mapping(1, 1536, second, 4),
            mapping(15, 0x7fff_fe00, second, 4),
        ]?),
        fails: Listed::new(alloc),
        body,
    })
}
