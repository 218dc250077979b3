ghost use Rattle.std.specs.Prelude.{◌≡◌};

use std::test::Fail;
use vm_journal::{Entry, Journal, Kept, What};
use vm_types::{Addr, Pfn, PoolName, Seat};

fn entry(seat: u32, what: What) -> Entry {
    Entry {
        seat: Seat(seat),
        what,
    }
}

// What a keeper stands on: a number, and the name of a pool.
#[derive(Clone, Copy)]
struct Stand {
    frames: u32,
    pool: PoolName,
}

#[derive(Drop)]
struct Keeper {
    journal: Journal,
}

impl Kept for Keeper {
    type Base = Stand;

    ghost journal = { λ k. k.journal.entries };

    ghost base = { λ k. record { frames = 8; pool = record { number = 1; size = 8 } } };

    fn entries(&self) -> &[Entry] {
        self.journal.entries()
    }
}

// The entries of any keeper.
fn kept<K: Kept>(keeper: &K) -> usize {
    keeper.entries().len()
}

#[test]
fn keeps_entries_with_ample_memory(rt: HostRuntime) -> Result<(), Fail> {
    let mut journal = Journal::new(rt.alloc());
    assert_eq!(rt; journal.reserve(64), Ok(()));
    let first = entry(
        0,
        What::Zero {
            a: Addr(512),
            f: Pfn(3),
        },
    );
    let second = entry(1, What::Limit { n: 4, faults: 2 });
    journal.push(first);
    journal.push(second);
    assert_eq!(rt; journal.spare(), 62);
    assert_eq!(rt; kept(&journal), 2);
    assert_eq!(rt; journal.entries(), [first, second].as_slice());
    let keeper = Keeper { journal };
    assert_eq!(rt; kept(&keeper), 2);
    Ok(())
}
