use run_record::RunRecord;
use std::alloc::Global;
use std::process::Abort;
use std::test::Fail;
use vm_journal::{Entry, What};
use vm_types::{Addr, Mode, Op, Pfn, Ref, Reply, Seat, Width};

// Four entries for each request of the greatest made trace.
const ROOM: u32 = 400_000;

// A frame is filled with zeros, and answers a read.
fn first_two() -> [Entry; 2] {
    let r = Ref {
        mode: Mode::U,
        addr: Addr(512),
        op: Op::Read(Width::Four),
    };
    [
        Entry {
            seat: Seat(300),
            what: What::Zero {
                a: Addr(512),
                f: Pfn(3),
            },
        },
        Entry {
            seat: Seat(1),
            what: What::Done {
                r,
                reply: Reply::Value(0),
            },
        },
    ]
}

// With `keeps`, the entries themselves are kept.
fn records(rt: &impl Abort, alloc: Global, keeps: bool) -> Result<(), Fail> {
    let entries = first_two();
    let mut record = if keeps {
        RunRecord::new(alloc)
    } else {
        RunRecord::counting(alloc)
    };
    assert_eq!(rt; record.reserve(ROOM), Ok(()));
    record.push(entries[0]);
    record.push(entries[1]);
    assert_eq!(rt;
        (record.len(), record.spare(), record.answers()),
        (2, ROOM - 2, 1)
    );
    assert!(rt; record.seat_of(1).0 >= 255);
    assert_eq!(rt; record.seat_of(2), Seat(1));
    let there = if keeps { entries.as_slice() } else { &[] };
    assert_eq!(rt; record.entries(), there);
    let (done, zero) = if keeps { (0, 0) } else { (1, 1) };
    assert_eq!(rt;
        record.kinds(),
        [done, 0, 0, 0, zero, 0, 0, 0, 0, 0, 0, 0, 0, 0, 0, 0]
    );
    assert_eq!(rt; record.into_entries().as_slice(), there);
    Ok(())
}

#[test]
fn records_a_run_with_room_for_the_greatest(rt: HostRuntime) -> Result<(), Fail> {
    records(&rt, rt.alloc(), true)?;
    records(&rt, rt.alloc(), false)
}
