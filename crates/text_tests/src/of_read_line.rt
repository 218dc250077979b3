//! The lines of entries, which entry_lines writes and entry_lines reads back.

ghost use Rattle.std.specs.Prelude.{◌≡◌, IfOk};
ghost use Rattle.vm_text.specs.Named.{AreNames};

use arrayvec::ArrayVec;
use entry_lines::{BadLine, line, read_line};
use std::alloc::Global;
use std::test::Fail;
use vm_journal::{Entry, EvictWhy, Role, What};
use vm_types::{
    Addr, Answer, BlockId, FrameState, Listed, Mode, NoMemory, Op, Page, Pfn, Proc, ProcStatus,
    Ref, Reply, Seat, SecId, Section, SectionKind, Service, Why, Width,
};

fn section(alloc: Global, name: &[u8]) -> Result<Section, NoMemory>
    ensures { IfOk result (λ s. s.name ≡ name.now) }
{
    let bytes = Vec::from_slice(alloc, name)?;
    Ok(Section {
        name: Listed::of(bytes),
        kind: SectionKind::Shared,
        bytes: Listed::new(alloc),
    })
}

// Whether the text is the line of the entry, read and written, with four processes.
fn is_line(text: &[u8], number: u64, e: Entry, names: &[Section]) -> bool
    requires { AreNames 4 names.now }
{
    match read_line(text, 4, names) {
        Ok((n, read)) => {
            let mut out = ArrayVec::new();
            line(n, &read, 4, names, &mut out);
            n == number && read == e && out.as_slice() == text
        }
        Err(_) => false,
    }
}

fn entry(seat: u32, what: What) -> Entry {
    Entry {
        seat: Seat(seat),
        what,
    }
}

fn user(address: u32, op: Op) -> Ref {
    Ref {
        mode: Mode::U,
        addr: Addr(address),
        op,
    }
}

// Entries of requests, from runs that were worked out by hand.
fn requests() -> [(&'static [u8], u64, Entry); 12] {
    let w4 = user(0, Op::Write(Width::Four, 42));
    let r4 = user(0, Op::Read(Width::Four));
    let a4 = user(0, Op::Add(1));
    let unmapped = user(2048, Op::Read(Width::One));
    let full = user(512, Op::Read(Width::Four));
    let kernel = Ref {
        mode: Mode::K,
        addr: Addr(512),
        op: Op::Read(Width::One),
    };
    let lost = user(0, Op::Read(Width::One));
    let at = Addr(0);
    [
        (
            b"2 A DONE W4 00000000 0000002A",
            2,
            entry(
                0,
                What::Done {
                    r: w4,
                    reply: Reply::Written,
                },
            ),
        ),
        (
            b"3 A DONE R4 00000000 0000002A",
            3,
            entry(
                0,
                What::Done {
                    r: r4,
                    reply: Reply::Value(42),
                },
            ),
        ),
        (
            b"1 D DONE A4 00000000 00000001 0000018F",
            1,
            entry(
                3,
                What::Done {
                    r: a4,
                    reply: Reply::Old(399),
                },
            ),
        ),
        (
            b"4 A DENIED R1 00000800 UNMAPPED",
            4,
            entry(
                0,
                What::Denied {
                    r: unmapped,
                    why: Why::Unmapped,
                },
            ),
        ),
        (
            b"3 A DENIED R4 00000200 PAGEFILEFULL",
            3,
            entry(
                0,
                What::Denied {
                    r: full,
                    why: Why::PageFileFull,
                },
            ),
        ),
        (
            b"2 A DENIED KR1 00000200 PROTECTED",
            2,
            entry(
                0,
                What::Denied {
                    r: kernel,
                    why: Why::Protected,
                },
            ),
        ),
        (
            b"5 A DENIED R1 00000000 DISKFAULT",
            5,
            entry(
                0,
                What::Denied {
                    r: lost,
                    why: Why::DiskFault,
                },
            ),
        ),
        (
            b"4 A SERVED DELTVA 00000000 1 OK",
            4,
            entry(
                0,
                What::Served {
                    s: Service::Delete { at, pages: 1 },
                    answer: Answer::Good,
                },
            ),
        ),
        (
            b"7 A SERVED CRETVA 00000000 1 UW OK",
            7,
            entry(
                0,
                What::Served {
                    s: Service::Create {
                        at,
                        pages: 1,
                        prot: 4,
                    },
                    answer: Answer::Good,
                },
            ),
        ),
        (
            b"5 A SERVED LKWSET 00000000 1 OK 1",
            5,
            entry(
                0,
                What::Served {
                    s: Service::Lock { at, pages: 1 },
                    answer: Answer::Count(1),
                },
            ),
        ),
        (
            b"7 A SERVED ADJWSL 2 BADLIMIT",
            7,
            entry(
                0,
                What::Served {
                    s: Service::Adjust { limit: 2 },
                    answer: Answer::BadLimit,
                },
            ),
        ),
        (
            b"10 A SERVED PURGWS 00000000 2 OK",
            10,
            entry(
                0,
                What::Served {
                    s: Service::Purge { at, pages: 2 },
                    answer: Answer::Good,
                },
            ),
        ),
    ]
}

// Entries of pages and transfers, from runs that were worked out by hand, and the longest line.
fn changes() -> [(&'static [u8], u64, Entry); 21] {
    let a = Addr(0);
    let f = Pfn(0);
    let p = Proc(0);
    let lib = BlockId::Section(SecId(0), 0);
    let img = BlockId::Section(SecId(1), 0);
    let next = Page::Shared(SecId(0), 2);
    let most = u64::MAX;
    [
        (b"1 A ZERO 00000000 F0", 1, entry(0, What::Zero { a, f })),
        (
            b"18 A REUSE F0 A/00000000",
            18,
            entry(
                0,
                What::Reuse {
                    f,
                    page: Page::Private(p, 0),
                },
            ),
        ),
        (
            b"4 A REUSE F0 LIB/0",
            4,
            entry(
                0,
                What::Reuse {
                    f,
                    page: Page::Shared(SecId(0), 0),
                },
            ),
        ),
        (
            b"4 B BACK B 00000000 F0 ACTIVE",
            4,
            entry(
                1,
                What::Back {
                    p: Proc(1),
                    a,
                    f,
                    from: FrameState::Active,
                },
            ),
        ),
        (
            b"10 A BACK A 00000000 F0 WRITING",
            10,
            entry(
                0,
                What::Back {
                    p,
                    a,
                    f,
                    from: FrameState::Writing,
                },
            ),
        ),
        (
            b"2 B COLLIDE 00000000 F0 1",
            2,
            entry(1, What::Collide { a, f, k: 1 }),
        ),
        (
            b"1 A IN F0 S:IMG/0 FAULT A/00000000",
            1,
            entry(
                0,
                What::In {
                    f,
                    block: img,
                    role: Role::Fault(p, a),
                },
            ),
        ),
        (
            b"2 A IN F1 S:LIB/2 NEAR LIB/2",
            2,
            entry(
                0,
                What::In {
                    f: Pfn(1),
                    block: BlockId::Section(SecId(0), 2),
                    role: Role::Near(next),
                },
            ),
        ),
        (
            b"57 SWP IN F5 X:D/0 COME D/00000200",
            57,
            entry(
                5,
                What::In {
                    f: Pfn(5),
                    block: BlockId::Swap(Proc(3), 0),
                    role: Role::Come(Proc(3), Addr(512)),
                },
            ),
        ),
        (b"2 A INOK F0 1", 2, entry(0, What::InOk { f, k: 1 })),
        (
            b"3 A INFAIL F0 1 0 1",
            3,
            entry(
                0,
                What::InFail {
                    f,
                    k: 1,
                    c: 0,
                    d: 1,
                },
            ),
        ),
        (
            b"12 A OUT F0 P:0",
            12,
            entry(
                0,
                What::Out {
                    f,
                    block: BlockId::PageFile(0),
                },
            ),
        ),
        (
            b"13 MPW OUT F0 S:LIB/0",
            13,
            entry(4, What::Out { f, block: lib }),
        ),
        (b"15 A OUTOK F0 12", 15, entry(0, What::OutOk { f, k: 12 })),
        (
            b"25 B OUTFAIL F2 20 0 1",
            25,
            entry(
                1,
                What::OutFail {
                    f: Pfn(2),
                    k: 20,
                    c: 0,
                    d: 1,
                },
            ),
        ),
        (
            b"3 A EVICT A 00000000 F0 DELETE MODIFIED",
            3,
            entry(
                0,
                What::Evict {
                    p,
                    a,
                    f,
                    why: EvictWhy::Delete,
                    to: FrameState::Modified,
                },
            ),
        ),
        (
            b"28 B EVICT A 00000000 F0 LEAVE FREE",
            28,
            entry(
                1,
                What::Evict {
                    p,
                    a,
                    f,
                    why: EvictWhy::Leave,
                    to: FrameState::Free,
                },
            ),
        ),
        (
            b"15 A EVICT A 00000000 F0 REPLACE RELEASE",
            15,
            entry(
                0,
                What::Evict {
                    p,
                    a,
                    f,
                    why: EvictWhy::Replace,
                    to: FrameState::ReleasePending,
                },
            ),
        ),
        (
            b"7 A LIMIT 2 2",
            7,
            entry(0, What::Limit { n: 2, faults: 2 }),
        ),
        (
            b"17 B TURN A LEAVING",
            17,
            entry(
                1,
                What::Turn {
                    p,
                    status: ProcStatus::Leaving,
                },
            ),
        ),
        (
            b"18446744073709551615 MPW OUTFAIL F4294967295 18446744073709551615 18446744073709551615 18446744073709551615",
            most,
            entry(
                4,
                What::OutFail {
                    f: Pfn(u32::MAX),
                    k: most,
                    c: most,
                    d: most,
                },
            ),
        ),
    ]
}

// Texts that are the line of no entry, with four processes and the sections LIB and IMG.
const NO_LINES: [&[u8]; 22] = [
    b"",
    b" ",
    b"1",
    b"1 A",
    b"1 A ZERO",
    b"01 A ZERO 00000000 F0",
    b"1 a ZERO 00000000 F0",
    b"1 A zero 00000000 F0",
    b"1 A ZERO 00000000 F00",
    b"1 A ZERO  00000000 F0",
    b"1 A ZERO 00000000 F0 ",
    b" 1 A ZERO 00000000 F0",
    b"1 A ZERO 0000000 F0",
    b"1 A ZERO 0000020a F0",
    b"1 A ZERO 00000001 F0",
    b"1 A ZERO 00000000 F4294967296",
    b"100000000000000000000 A ZERO 00000000 F0",
    b"18446744073709551616 A ZERO 00000000 F0",
    b"1 E ZERO 00000000 F0",
    b"1 A REUSE F0 CNT/0",
    b"1 A DONE R4 00000002 00000000",
    b"1 A DONE R1 00000000 0000002A",
];

#[test]
fn lines_are_written_and_read_back(rt: HostRuntime) -> Result<(), Fail> {
    let names = [section(rt.alloc(), b"LIB")?, section(rt.alloc(), b"IMG")?];
    for (text, number, e) in requests() {
        assert!(rt; is_line(text, number, e, &names));
    }
    for (text, number, e) in changes() {
        assert!(rt; is_line(text, number, e, &names));
    }
    for text in NO_LINES {
        assert_eq!(rt; read_line(text, 4, &names), Err(BadLine));
    }
    assert_eq!(rt; read_line(&[b'1'; 160], 4, &names), Err(BadLine));
    assert_eq!(rt; read_line(&[b' '; 160], 4, &names), Err(BadLine));
    Ok(())
}
