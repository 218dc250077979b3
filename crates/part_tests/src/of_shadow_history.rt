ghost use Rattle.std.specs.Prelude.{◌+◌, ◌<◌, ◌^◌, IsTrue, length};
ghost use Rattle.pager_model.specs.Flights.{open_flights};
ghost use Rattle.shadow_history.specs.Standing.{FailsOpen};

use crate::configs::{config, read_first};
use shadow_history::ShadowHistory;
use std::process::Abort;
use std::test::Fail;
use vm_journal::{Entry, Role, What};
use vm_types::{Addr, BlockId, Page, Pfn, Proc, Reply, Seat, SecId, Why};

/// Whether the entry may be added.
fn may_add(log: &ShadowHistory<'_>, e: Entry) -> bool
    ensures seat { IsTrue result → (e.seat).0 < length log.now.config.procs + 2 }
    ensures few { IsTrue result → length log.now.past + 1 < 2 ^ 48 }
    ensures open { IsTrue result → FailsOpen e.what (open_flights log.now.past) }
{
    let is_open = match e.what {
        What::InFail { k, .. } => log.flight(k).is_some(),
        _ => true,
    };
    let seats = log.config().procs.items().len() + 2;
    is_open && (e.seat.0 as usize) < seats && log.count() < 100
}

/// What is read after an entry: whether its seat is busy, and whether a frame awaits its reuse; the flights on
/// the first frame; whether the first block of the first section is still, and its count; of the
/// seat's carrier how many were begun and have landed, and whether it is lost and unspoken.
type Reading = (bool, bool, usize, bool, u64, u64, u64, bool);

fn reading(log: &ShadowHistory<'_>, seat: Seat) -> Reading
    requires { seat.0 < length log.now.config.procs + 2 }
{
    let block = BlockId::Section(SecId(0), 0);
    let row = log.carrying(seat);
    (
        log.is_busy(seat),
        log.awaits_reuse(),
        log.flights_on(Pfn(0)),
        log.is_still(block),
        log.last_count(block),
        row.begun(),
        row.landed(),
        log.has_lost(seat),
    )
}

/// Adds the entries, each of which keeps the order, and compares what is read after each.
fn follow(
    rt: &impl Abort,
    log: &mut ShadowHistory<'_>,
    table: &[(u32, What, Reading)],
) -> Result<(), Fail> {
    for (seat, what, expected) in table {
        let e = Entry {
            seat: Seat(*seat),
            what: *what,
        };
        assert!(rt; may_add(log, e) && log.keeps_order(e));
        log.add(e)?;
        assert!(rt; (*seat as usize) < log.config().procs.items().len() + 2);
        assert_eq!(rt; reading(log, e.seat), *expected, "entry {}", log.count());
    }
    Ok(())
}

/// A frame is written to the block of its number.
fn out(f: u32) -> What {
    What::Out {
        f: Pfn(f),
        block: BlockId::PageFile(f),
    }
}

/// The write of a frame, begun by this entry, has ended.
fn out_ok(f: u32, k: u64) -> What {
    What::OutOk { f: Pfn(f), k }
}

/// Three writes of a cluster, from entry 9 on.
fn cluster() -> [(u32, What, Reading); 6] {
    [
        (0, out(0), (true, false, 1, true, 1, 1, 0, false)),
        (0, out(1), (true, false, 1, true, 1, 2, 0, false)),
        (0, out(2), (true, false, 1, true, 1, 3, 0, false)),
        (0, out_ok(0, 9), (true, false, 0, true, 1, 3, 1, false)),
        (0, out_ok(1, 10), (true, false, 0, true, 1, 3, 2, false)),
        (0, out_ok(2, 11), (false, false, 0, true, 1, 3, 3, false)),
    ]
}

#[test]
fn follows_a_failed_read(rt: HostRuntime) -> Result<(), Fail> {
    let alloc = rt.alloc();
    let config = config(alloc, 1)?;
    let mut log = ShadowHistory::new(alloc, &config)?;
    let first = BlockId::Section(SecId(0), 0);
    let page = Page::Shared(SecId(0), 0);
    let r = read_first();
    let table = [
        (
            0,
            What::In {
                f: Pfn(0),
                block: first,
                role: Role::Fault(Proc(0), Addr(0)),
            },
            (true, false, 1, false, 0, 1, 0, false),
        ),
        (
            1,
            What::Collide {
                a: Addr(0),
                f: Pfn(0),
                k: 1,
            },
            (false, false, 1, false, 0, 0, 0, false),
        ),
        (
            0,
            What::InFail {
                f: Pfn(0),
                k: 1,
                c: 0,
                d: 1,
            },
            (false, true, 0, true, 1, 1, 1, true),
        ),
        (
            0,
            What::Reuse { f: Pfn(0), page },
            (false, false, 0, true, 1, 1, 1, true),
        ),
        (
            0,
            What::Denied {
                r,
                why: Why::DiskFault,
            },
            (false, false, 0, true, 1, 1, 1, false),
        ),
        (
            1,
            What::In {
                f: Pfn(0),
                block: first,
                role: Role::Fault(Proc(1), Addr(0)),
            },
            (true, false, 1, false, 1, 1, 0, false),
        ),
        (
            1,
            What::InOk { f: Pfn(0), k: 6 },
            (false, false, 0, true, 1, 1, 1, false),
        ),
    ];
    follow(&rt, &mut log, &table)?;
    let done = What::Done {
        r,
        reply: Reply::Value(0),
    };
    let again = Entry {
        seat: Seat(0),
        what: done,
    };
    assert!(rt; !log.keeps_order(again) && !log.is_answered());
    let last = (false, false, 0, true, 1, 1, 1, false);
    follow(&rt, &mut log, &[(1, done, last)])?;
    assert!(rt; log.is_answered() && log.is_landed() && log.failed().is_none());
    follow(&rt, &mut log, &cluster())
}
