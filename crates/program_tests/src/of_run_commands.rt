use outside_io::{MemorySink, WriteFault};
use run_commands::{Make, print_summary};
use run_record::RunRecord;
use std::alloc::Global;
use std::test::Fail;
use vm_journal::{Entry, What};
use vm_types::{Addr, Mode, Op, Pfn, Ref, Reply, Seat, Why, Width};

const MAKE: Make = Make {
    seed: 7,
    procs: 1,
    refs: 3,
};

const TEXT: &str = "MADE 7 1 3\n\
DONE 2 DENIED 1\n\
ZERO 1 BACK 0 IN 0 OUT 0 EVICT 0\n\
TURN 0 LIMIT 0\n\
ENTRIES 4\n";

fn entry(what: What) -> Entry {
    Entry {
        seat: Seat(0),
        what,
    }
}

fn reference(at: u32, op: Op) -> Ref {
    Ref {
        mode: Mode::U,
        addr: Addr(at),
        op,
    }
}

// A write and a read of a page that is touched first here, and a read of an address that no page is
// mapped at.
fn first_run() -> [Entry; 4] {
    [
        entry(What::Zero {
            a: Addr(0),
            f: Pfn(0),
        }),
        entry(What::Done {
            r: reference(0, Op::Write(Width::Four, 42)),
            reply: Reply::Written,
        }),
        entry(What::Done {
            r: reference(0, Op::Read(Width::Four)),
            reply: Reply::Value(42),
        }),
        entry(What::Denied {
            r: reference(2048, Op::Read(Width::One)),
            why: Why::Unmapped,
        }),
    ]
}

/// A record that counts these entries.
fn counted(alloc: Global, entries: &[Entry]) -> Result<RunRecord, Fail> {
    let mut record = RunRecord::counting(alloc);
    for e in entries {
        record.reserve(1)?;
        record.push(*e);
    }
    Ok(record)
}

#[test]
fn counts_the_entries(rt: HostRuntime) -> Result<(), Fail> {
    let alloc = rt.alloc();
    let mut sink = MemorySink::new(alloc, 200, Vec::new(alloc), Vec::new(alloc))?;
    let run = counted(alloc, &first_run())?;
    assert_eq!(rt;
        print_summary(MAKE, run.len(), &run.kinds(), &mut sink),
        Ok(())
    );
    assert_eq!(rt; sink.taken(), TEXT.as_bytes());
    // The third write fails.
    let mut sink = MemorySink::new(alloc, 200, [3].to_vec(alloc)?, Vec::new(alloc))?;
    let failed = print_summary(MAKE, run.len(), &run.kinds(), &mut sink);
    assert_eq!(rt; failed, Err(WriteFault::Failed));
    assert_eq!(rt; sink.taken(), b"MADE 7 1 3\nDONE 2 DENIED 1\n".as_slice());
    Ok(())
}
