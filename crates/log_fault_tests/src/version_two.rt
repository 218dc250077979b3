//! What `check` says of logs of traces of version 2, with sections in the page file and pages locked in memory:
//! whole ones, and such with one wrong line each.

use crate::checks::{Change, input};
use crate::wrong_lines::{Wrong, explains};
use program_runs::outcome;
use replay_cli::Status;
use std::test::Fail;
use worked_runs::{
    BETWEEN_SECTIONS, BETWEEN_SECTIONS_TEXT, CHARGED_FOR_GOOD, CHARGED_FOR_GOOD_TEXT,
    DIRTY_IN_THE_PAGE_FILE, DIRTY_IN_THE_PAGE_FILE_TEXT, FIXED_SLOTS, FIXED_SLOTS_TEXT,
    KEPT_BY_ANOTHER, KEPT_BY_ANOTHER_TEXT, PINNED_ALONE, PINNED_ALONE_TEXT, PINNED_AND_LOCKED,
    PINNED_AND_LOCKED_TEXT, PINNED_BY_ONE_GONE, PINNED_BY_ONE_GONE_TEXT, PINNED_BY_TWO,
    PINNED_BY_TWO_TEXT, PINNED_OUTSIDE, PINNED_OUTSIDE_TEXT, READ_BACK, READ_BACK_TEXT,
    TOUCHED_TOGETHER, TOUCHED_TOGETHER_TEXT,
};

const IN_TOUCHED_TOGETHER: [Wrong; 5] = [
    (3, "3 B ZERO 00000200 F1\n", "the page was touched before"),
    (
        5,
        "5 A IN F1 S:COM/1 FAULT A/00000200\n",
        "there is no such block",
    ),
    (
        7,
        "7 A ZERO 00000400 F2\n",
        "each block of the page file is promised to a page, all 2",
    ),
    (
        7,
        "7 A DENIED R1 00000400 UNMAPPED\n",
        "the reference isn't refused so, but: PAGEFILEFULL",
    ),
    (19, "12 MPW OUT F1 S:COM/1\n", "there is no such block"),
];

const IN_READ_BACK: [Wrong; 3] = [
    (8, "8 A ZERO 00000000 F3\n", "the page was touched before"),
    (
        13,
        "13 A OUT F1 P:2\n",
        "the block isn't the one behind P:0, that of the seat's last transfer",
    ),
    (
        23,
        "23 A IN F1 P:1 FAULT A/00000000\n",
        "the page lies in another block, P:0",
    ),
];

const IN_PINNED_OUTSIDE: [Wrong; 4] = [
    (
        21,
        "21 B EVICT A 00000200 F1 LEAVE MODIFIED\n",
        "the page is pinned",
    ),
    (22, "22 B OUT F1 X:A/1\n", "the page is pinned"),
    (
        28,
        "28 B TURN A GONE\n",
        "pages that aren't pinned are left in the working set, 3",
    ),
    (
        61,
        "FRAME 1 ACTIVE A/00000200 MODIFY 1 REFS 1 SHARES 1\n",
        "the line that comes here is FRAME 1 ACTIVE A/00000200 MODIFY 1 REFS 2 SHARES 1",
    ),
];

const IN_PINNED_AND_LOCKED: [Wrong; 6] = [
    (
        11,
        "11 A SERVED LCKPAG 00000200 1 LOCKLIMIT\n",
        "the process may have as many pages locked or pinned, 1 of 1 pages",
    ),
    (
        11,
        "11 A SERVED LCKPAG 00000200 1 OK 0\n",
        "another number of pages is counted, 1",
    ),
    (
        12,
        "12 A SERVED LKWSET 00000000 1 OK 1\n",
        "the process may not have as many pages locked or pinned, 2 of 1 pages",
    ),
    (
        13,
        "13 A SERVED LKWSET 00000200 1 LOCKLIMIT\n",
        "the process may have as many pages locked or pinned, 1 of 1 pages",
    ),
    (
        14,
        "14 A SERVED ULKPAG 00000000 5 OK 2\n",
        "another number of pages is counted, 1",
    ),
    (
        14,
        "14 A SERVED ULKPAG 00000000 5 OK\n",
        "the service has no such answer",
    ),
];

const IN_FIXED_SLOTS: [Wrong; 3] = [
    (
        11,
        "11 A EVICT A 00000000 F0 REPLACE MODIFIED\n",
        "the page isn't the victim, which is in slot 2",
    ),
    (
        17,
        "17 A EVICT A 00000000 F0 PURGE MODIFIED\n",
        "the page is locked or pinned",
    ),
    (
        20,
        "20 A SERVED ADJWSL 3 OK\n",
        "the limit is out of its bounds, 4 to 4",
    ),
];

const IN_PINNED_BY_TWO: [Wrong; 2] = [
    (
        21,
        "FRAME 0 ACTIVE COM/0 MODIFY 1 REFS 2 SHARES 2\n",
        "the line that comes here is FRAME 0 ACTIVE COM/0 MODIFY 1 REFS 3 SHARES 2",
    ),
    (
        34,
        "23 MPW OUT F5 S:LIB/0\n",
        "the page is written to another block, none",
    ),
];

const IN_PINNED_BY_ONE_GONE: [Wrong; 1] = [(
    26,
    "26 B EVICT A 00000000 F0 LEAVE MODIFIED\n",
    "the page is pinned",
)];

const IN_CHARGED_FOR_GOOD: [Wrong; 1] = [(
    13,
    "13 A ZERO 00000000 F2\n",
    "each block of the page file is promised to a page, all 2",
)];

#[test]
fn says_why_a_line_of_version_two_is_wrong(rt: HostRuntime) -> Result<(), Fail> {
    let alloc = rt.alloc();
    let table: [(&str, &str, &[Wrong]); 8] = [
        (
            TOUCHED_TOGETHER,
            TOUCHED_TOGETHER_TEXT,
            &IN_TOUCHED_TOGETHER,
        ),
        (READ_BACK, READ_BACK_TEXT, &IN_READ_BACK),
        (PINNED_OUTSIDE, PINNED_OUTSIDE_TEXT, &IN_PINNED_OUTSIDE),
        (
            PINNED_AND_LOCKED,
            PINNED_AND_LOCKED_TEXT,
            &IN_PINNED_AND_LOCKED,
        ),
        (FIXED_SLOTS, FIXED_SLOTS_TEXT, &IN_FIXED_SLOTS),
        (PINNED_BY_TWO, PINNED_BY_TWO_TEXT, &IN_PINNED_BY_TWO),
        (
            PINNED_BY_ONE_GONE,
            PINNED_BY_ONE_GONE_TEXT,
            &IN_PINNED_BY_ONE_GONE,
        ),
        (
            CHARGED_FOR_GOOD,
            CHARGED_FOR_GOOD_TEXT,
            &IN_CHARGED_FOR_GOOD,
        ),
    ];
    for (trace, log, lines) in table {
        assert!(rt; explains(&rt, alloc, trace, log, lines)?);
    }
    Ok(())
}

// The log of each run is legal, with so many entries.
#[test]
fn judges_logs_of_version_two(rt: HostRuntime) -> Result<(), Fail> {
    let table: [(&str, &str, &str); 12] = [
        (
            TOUCHED_TOGETHER,
            TOUCHED_TOGETHER_TEXT,
            "LOG OK 15\nSTATUS 0\n",
        ),
        (READ_BACK, READ_BACK_TEXT, "LOG OK 31\nSTATUS 0\n"),
        (PINNED_OUTSIDE, PINNED_OUTSIDE_TEXT, "LOG OK 57\nSTATUS 0\n"),
        (
            PINNED_AND_LOCKED,
            PINNED_AND_LOCKED_TEXT,
            "LOG OK 14\nSTATUS 0\n",
        ),
        (FIXED_SLOTS, FIXED_SLOTS_TEXT, "LOG OK 25\nSTATUS 0\n"),
        (PINNED_ALONE, PINNED_ALONE_TEXT, "LOG OK 32\nSTATUS 0\n"),
        (PINNED_BY_TWO, PINNED_BY_TWO_TEXT, "LOG OK 26\nSTATUS 0\n"),
        (
            PINNED_BY_ONE_GONE,
            PINNED_BY_ONE_GONE_TEXT,
            "LOG OK 35\nSTATUS 0\n",
        ),
        (
            CHARGED_FOR_GOOD,
            CHARGED_FOR_GOOD_TEXT,
            "LOG OK 17\nSTATUS 0\n",
        ),
        (
            KEPT_BY_ANOTHER,
            KEPT_BY_ANOTHER_TEXT,
            "LOG OK 10\nSTATUS 0\n",
        ),
        (
            BETWEEN_SECTIONS,
            BETWEEN_SECTIONS_TEXT,
            "LOG OK 66\nSTATUS 0\n",
        ),
        (
            DIRTY_IN_THE_PAGE_FILE,
            DIRTY_IN_THE_PAGE_FILE_TEXT,
            "LOG OK 13\nSTATUS 0\n",
        ),
    ];
    for (trace, log, written) in table {
        let text = input(rt.alloc(), trace, log, Change::End(1000, ""))?;
        let told = outcome(rt.alloc(), &["check"], &text, &[], &[], &[], &[])?;
        assert_eq!(rt; told.0, Status(0));
        assert_eq!(rt; told.1.as_slice(), written.as_bytes());
    }
    Ok(())
}
