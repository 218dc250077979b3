//! Traces of version 2: sections in the page file, and pages locked in memory.

use crate::texts::writes_texts;
use program_runs::{FIRST_RUN, FIRST_RUN_TEXT, serial};
use replay_cli::Status;
use std::test::Fail;
use worked_runs::{
    BETWEEN_SECTIONS, BETWEEN_SECTIONS_TEXT, CHARGED_FOR_GOOD, CHARGED_FOR_GOOD_TEXT, COPIES,
    COPIES_TEXT, FIXED_SLOTS, FIXED_SLOTS_TEXT, KEPT_BY_ANOTHER, KEPT_BY_ANOTHER_TEXT, LOCKS,
    LOCKS_TEXT, OUT_AND_IN_AGAIN, OUT_AND_IN_AGAIN_TEXT, PINNED_ALONE, PINNED_ALONE_TEXT,
    PINNED_AND_LOCKED, PINNED_AND_LOCKED_TEXT, PINNED_BY_ONE_GONE, PINNED_BY_ONE_GONE_TEXT,
    PINNED_BY_TWO, PINNED_BY_TWO_TEXT, PINNED_OUTSIDE, PINNED_OUTSIDE_TEXT, READ_BACK,
    READ_BACK_TEXT, SHARED_PAGE, SHARED_PAGE_TEXT, TOUCHED_TOGETHER, TOUCHED_TOGETHER_TEXT,
    WRITTEN_TOGETHER, WRITTEN_TOGETHER_TEXT,
};

// Where the first line has the version.
const VERSION_AT: usize = 8;

#[test]
fn shares_and_pins(rt: HostRuntime) -> Result<(), Fail> {
    let table: [(&str, &str); 11] = [
        (TOUCHED_TOGETHER, TOUCHED_TOGETHER_TEXT),
        (READ_BACK, READ_BACK_TEXT),
        (PINNED_OUTSIDE, PINNED_OUTSIDE_TEXT),
        (PINNED_AND_LOCKED, PINNED_AND_LOCKED_TEXT),
        (FIXED_SLOTS, FIXED_SLOTS_TEXT),
        (PINNED_ALONE, PINNED_ALONE_TEXT),
        (PINNED_BY_TWO, PINNED_BY_TWO_TEXT),
        (PINNED_BY_ONE_GONE, PINNED_BY_ONE_GONE_TEXT),
        (CHARGED_FOR_GOOD, CHARGED_FOR_GOOD_TEXT),
        (KEPT_BY_ANOTHER, KEPT_BY_ANOTHER_TEXT),
        (BETWEEN_SECTIONS, BETWEEN_SECTIONS_TEXT),
    ];
    writes_texts(&rt, rt.alloc(), &table)
}

// A trace of version 1 has the same run as one of version 2.
#[test]
fn keeps_the_runs_of_version_one(rt: HostRuntime) -> Result<(), Fail> {
    let alloc = rt.alloc();
    let table: [(&str, &str); 6] = [
        (FIRST_RUN, FIRST_RUN_TEXT),
        (WRITTEN_TOGETHER, WRITTEN_TOGETHER_TEXT),
        (COPIES, COPIES_TEXT),
        (SHARED_PAGE, SHARED_PAGE_TEXT),
        (OUT_AND_IN_AGAIN, OUT_AND_IN_AGAIN_TEXT),
        (LOCKS, LOCKS_TEXT),
    ];
    for (trace, text) in table {
        let mut second = trace.as_bytes().to_vec(alloc)?;
        if let Some(digit) = second.get_mut(VERSION_AT) {
            *digit = b'2';
        }
        let told = serial(alloc, &second)?;
        assert_eq!(rt; told.0, Status(0));
        assert_eq!(rt; told.1.as_slice(), text.as_bytes());
    }
    Ok(())
}
