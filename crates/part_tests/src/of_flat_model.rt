ghost use Rattle.std.specs.Prelude.{◌≤◌, IsTrue};
ghost use Rattle.vm_types.specs.WellFormed.{IsWellFormedReference};

use crate::configs::config;
use flat_model::Flat;
use std::alloc::Global;
use std::process::Abort;
use std::test::Fail;
use vm_types::{Addr, Mode, Op, Proc, Ref, Reply, Service, Why, Width};

/// Whether the address is a multiple of the width, and a written value fits it.
fn is_formed(r: Ref) -> bool
    ensures { IsTrue result → IsWellFormedReference r }
{
    match r.op {
        Op::Read(Width::One) => true,
        Op::Read(Width::Two) => r.addr.0 % 2 == 0,
        Op::Read(Width::Four) | Op::Write(Width::Four, _) | Op::Add(_) => r.addr.0 % 4 == 0,
        Op::Write(Width::One, n) => n < 256,
        Op::Write(Width::Two, n) => r.addr.0 % 2 == 0 && n < 65536,
    }
}

/// Asks for each reference in user mode, and compares the replies.
fn compare(
    rt: &impl Abort,
    alloc: Global,
    pagefile: u32,
    table: &[(u32, u32, Op, Reply)],
) -> Result<(), Fail>
    requires { (1 ≤ pagefile) × (pagefile ≤ 16384) }
{
    let mut flat = Flat::new(alloc, &config(alloc, pagefile)?)?;
    for (p, addr, op, reply) in table {
        let r = Ref {
            mode: Mode::U,
            addr: Addr(*addr),
            op: *op,
        };
        assert!(rt; is_formed(r));
        let given = flat.answer(Proc(*p), r)?;
        assert_eq!(rt; given, *reply, "at {addr}");
    }
    Ok(())
}

#[test]
fn answers_by_hand(rt: HostRuntime) -> Result<(), Fail> {
    let byte = Op::Read(Width::One);
    let word = Op::Read(Width::Two);
    let four = Op::Read(Width::Four);
    compare(
        &rt,
        rt.alloc(),
        1,
        &[
            (0, 3, byte, Reply::Value(0)),
            (0, 4, Op::Write(Width::Four, 0x0403_0201), Reply::Written),
            (0, 5, byte, Reply::Value(2)),
            (0, 4, Op::Add(0xffff_ffff), Reply::Old(0x0403_0201)),
            (0, 4, four, Reply::Value(0x0403_0200)),
            (0, 512, byte, Reply::Refused(Why::PageFileFull)),
            (0, 512, byte, Reply::Refused(Why::PageFileFull)),
            (0, 6, word, Reply::Value(0x0403)),
            (0, 2048, byte, Reply::Refused(Why::Protected)),
            (0, 2560, byte, Reply::Refused(Why::Unmapped)),
            (1, 0, byte, Reply::Refused(Why::Unmapped)),
            (1, 1024, word, Reply::Value(0x0707)),
        ],
    )?;
    compare(
        &rt,
        rt.alloc(),
        2,
        &[
            (0, 1024, Op::Write(Width::One, 1), Reply::Written),
            (1, 1024, word, Reply::Value(0x0701)),
            (0, 1536, Op::Write(Width::Two, 5), Reply::Written),
            (1, 1536, four, Reply::Value(0x0909_0909)),
            (0, 1536, four, Reply::Value(0x0909_0005)),
            (0, 0, byte, Reply::Refused(Why::PageFileFull)),
        ],
    )
}

/// What the first process reads at an address, in user mode.
fn byte_of(rt: &impl Abort, flat: &mut Flat, addr: u32) -> Result<Reply, Fail> {
    let r = Ref {
        mode: Mode::U,
        addr: Addr(addr),
        op: Op::Read(Width::One),
    };
    assert!(rt; is_formed(r));
    Ok(flat.answer(Proc(0), r)?)
}

#[test]
fn deletes_and_creates_again(rt: HostRuntime) -> Result<(), Fail> {
    let mut flat = Flat::new(rt.alloc(), &config(rt.alloc(), 1)?)?;
    let at = Addr(512);
    let write = Ref {
        mode: Mode::U,
        addr: at,
        op: Op::Write(Width::One, 7),
    };
    assert!(rt; is_formed(write));
    assert_eq!(rt; flat.answer(Proc(0), write)?, Reply::Written);
    assert_eq!(rt;
        byte_of(&rt, &mut flat, 0)?,
        Reply::Refused(Why::PageFileFull)
    );
    flat.change(Proc(0), Service::Delete { at, pages: 1 });
    assert_eq!(rt;
        byte_of(&rt, &mut flat, 512)?,
        Reply::Refused(Why::Unmapped)
    );
    assert_eq!(rt; byte_of(&rt, &mut flat, 1024)?, Reply::Value(7));
    let prot = 4;
    flat.change(Proc(0), Service::Create { at, pages: 1, prot });
    assert_eq!(rt; byte_of(&rt, &mut flat, 512)?, Reply::Value(0));
    let prot = 2;
    flat.change(Proc(0), Service::Protect { at, pages: 1, prot });
    assert_eq!(rt;
        byte_of(&rt, &mut flat, 512)?,
        Reply::Refused(Why::Protected)
    );
    flat.change(Proc(0), Service::Purge { at, pages: 1 });
    assert_eq!(rt;
        byte_of(&rt, &mut flat, 1536)?,
        Reply::Refused(Why::PageFileFull)
    );
    Ok(())
}
