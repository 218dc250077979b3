//! The entries that schedules make.

ghost use Rattle.std.specs.Prelude.{◌<◌};

use crate::schedule::play;
use crate::schedules::all;
use seat_schedules::Went;
use std::test::Fail;
use vm_journal::{Entry, What};

/// The place of a kind among the sixteen.
fn kind_of(what: &What) -> usize
    ensures { result < 16 }
{
    match what {
        What::Done { .. } => 0,
        What::Denied { .. } => 1,
        What::Served { .. } => 2,
        What::Reuse { .. } => 3,
        What::Zero { .. } => 4,
        What::Back { .. } => 5,
        What::Collide { .. } => 6,
        What::In { .. } => 7,
        What::InOk { .. } => 8,
        What::InFail { .. } => 9,
        What::Out { .. } => 10,
        What::OutOk { .. } => 11,
        What::OutFail { .. } => 12,
        What::Evict { .. } => 13,
        What::Limit { .. } => 14,
        What::Turn { .. } => 15,
    }
}

/// Adds the kinds of entries to those that were seen.
fn see(seen: &mut [bool; 16], entries: &[Entry]) {
    for e in entries {
        seen[kind_of(&e.what)] = true;
    }
}

// Transfers of a seat are open while other seats make entries. Each kind of entry is made by some
// schedule.
#[test]
fn schedules_make_their_entries(rt: HostRuntime) -> Result<(), Fail> {
    let schedules = all();
    let mut seen = [false; 16];
    for schedule in &schedules {
        let played = play(rt.alloc(), schedule.trace, schedule.steps)?;
        assert_eq!(rt; played.lines.as_slice(), schedule.lines);
        assert_eq!(rt; played.went, Went::Made);
        see(&mut seen, &played.entries);
    }
    assert_eq!(rt; seen, [true; 16]);
    Ok(())
}
