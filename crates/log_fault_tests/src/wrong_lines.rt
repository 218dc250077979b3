//! Why `check` says that a line of a log isn't a legal next one: one wrong line each.

use crate::checks::{Change, input};
use disk_trait::MemoryDepot;
use outside_io::{MemorySink, MemorySource};
use program_call::{ListedArguments, run_and_explain};
use program_runs::{FIRST_RUN, FIRST_RUN_TEXT};
use replay_cli::{CallEnds, Status};
use std::alloc::Global;
use std::sync::Wait;
use std::test::Fail;
use std::thread::Threads;
use vm_types::NoMemory;
use worked_runs::{
    COLLISION, COLLISION_TEXT, DELETIONS, DELETIONS_TEXT, GROWING_LIMIT, GROWING_LIMIT_TEXT, LOCKS,
    LOCKS_TEXT, NEIGHBOURS, NEIGHBOURS_TEXT, OUT_AND_IN_AGAIN, OUT_AND_IN_AGAIN_TEXT, SHARED_PAGE,
    SHARED_PAGE_TEXT, TWO_AT_MOST, TWO_AT_MOST_TEXT, WAITING_FOR_A_WRITE, WAITING_FOR_A_WRITE_TEXT,
    WRITTEN_TOGETHER, WRITTEN_TOGETHER_TEXT,
};

// The number of a line, the line that stands in its place, and why that isn't a legal next one.
pub(super) type Wrong = (usize, &'static str, &'static str);

const IN_FIRST_RUN: [Wrong; 48] = [
    (1, "1 B ZERO 00000000 F0\n", "the line is no entry's"),
    (1, "2 A ZERO 00000000 F0\n", "the next entry's number is 1"),
    (
        1,
        "1 A ZERO 00000000 F1\n",
        "the frame doesn't head the free list; F0 does",
    ),
    (1, "1 A ZERO 00000800 F0\n", "the page isn't made of zeros"),
    (
        1,
        "1 MPW ZERO 00000000 F0\n",
        "there are only so many processes, 1",
    ),
    (2, "2 A ZERO 00000000 F1\n", "the page was touched before"),
    (2, "2 A DONE W4 00000200 0000002A\n", "the page isn't valid"),
    (
        2,
        "2 A DONE R4 00000000 00000000\n",
        "it isn't what the process asks for next",
    ),
    (
        2,
        "2 A LIMIT 4 1\n",
        "no adjustment of the limit is due, after 0 references",
    ),
    (
        2,
        "2 A BACK A 00000200 F0 FREE\n",
        "the frame doesn't hold the page; it holds A/00000000",
    ),
    (
        2,
        "2 A BACK A 00000000 F0 ACTIVE\n",
        "the page is valid already",
    ),
    (
        2,
        "2 A REUSE F1 A/00000000\n",
        "the frame doesn't hold the page; it holds none",
    ),
    (
        2,
        "2 A REUSE F0 A/00000000\n",
        "the frame doesn't head the free list; F1 does",
    ),
    (
        2,
        "2 A COLLIDE 00000000 F0 1\n",
        "no open transfer began in the entry of that number",
    ),
    (
        2,
        "2 A EVICT A 00000000 F0 REPLACE MODIFIED\n",
        "the working set isn't full, with 1 of 4 pages",
    ),
    (
        2,
        "2 A EVICT A 00000200 F0 DELETE MODIFIED\n",
        "the page isn't valid",
    ),
    (
        2,
        "2 A EVICT A 00000000 F1 DELETE MODIFIED\n",
        "the page is valid in another frame, F0",
    ),
    (
        2,
        "2 A EVICT A 00000000 F0 RUNDOWN MODIFIED\n",
        "the seat isn't MPW",
    ),
    (
        2,
        "2 MPW EVICT A 00000000 F0 RUNDOWN MODIFIED\n",
        "a request is left to answer",
    ),
    (
        2,
        "2 A TURN A GONE\n",
        "the process is in another status, RESIDENT",
    ),
    (
        2,
        "2 A OUT F0 P:0\n",
        "the frame doesn't head the modified list; none does",
    ),
    (2, "2 A OUT F0 P:4\n", "there is no such block"),
    (
        2,
        "2 A OUT F0 X:A/0\n",
        "the process is in another status, RESIDENT",
    ),
    (2, "2 A OUT F1 X:A/0\n", "the frame holds no page"),
    (
        2,
        "2 A IN F1 P:0 FAULT A/00000200\n",
        "the page lies in another block, none",
    ),
    (
        2,
        "2 A IN F1 P:0 FAULT A/00000000\n",
        "a frame still holds the page",
    ),
    (
        2,
        "2 A IN F1 P:0 FAULT A/00000800\n",
        "the page isn't mapped",
    ),
    (
        2,
        "2 A IN F1 P:0 NEAR A/00000200\n",
        "the seat has no open read for a fault or a neighbour that this one follows",
    ),
    (
        2,
        "2 A IN F1 X:A/0 COME A/00000200\n",
        "the process is in another status, RESIDENT",
    ),
    (
        3,
        "3 A DONE R4 00000000 0000002B\n",
        "the right reply is another one, 0000002A",
    ),
    (
        4,
        "4 A DENIED R1 00000800 PROTECTED\n",
        "the reference isn't refused so, but: UNMAPPED",
    ),
    (
        4,
        "4 A DENIED R1 00000800 DISKFAULT\n",
        "the seat's last transfers aren't lost",
    ),
    (
        4,
        "4 A DENIED R1 00000000 UNMAPPED\n",
        "the reference isn't refused so, but: none",
    ),
    (4, "4 A DONE R1 00000800 00\n", "the page isn't mapped"),
    (
        4,
        "4 A SERVED LCKPAG 00000000 1 OK 1\n",
        "the version of the trace has no such service",
    ),
    (
        4,
        "4 A SERVED ADJWSL 5 OK\n",
        "the limit is out of its bounds, 2 to 4",
    ),
    (
        4,
        "4 A SERVED ADJWSL 3 BADLIMIT\n",
        "the limit is within its bounds, 2 to 4",
    ),
    (
        4,
        "4 A SERVED ADJWSL 3 INUSE\n",
        "the service has no such answer",
    ),
    (
        4,
        "4 A SERVED CRETVA 00000600 2 UW OK\n",
        "a page of the range is mapped, that of page number 3",
    ),
    (
        4,
        "4 A SERVED CRETVA 00000800 2 UW INUSE\n",
        "no page of the range is mapped",
    ),
    (
        4,
        "4 A SERVED DELTVA 00000600 2 OK\n",
        "a page of the range isn't mapped, that of page number 4",
    ),
    (
        4,
        "4 A SERVED DELTVA 00000600 1 UNMAPPED\n",
        "each page of the range is mapped",
    ),
    (
        4,
        "4 A SERVED DELTVA 00000000 1 OK\n",
        "a page of the range is still valid",
    ),
    (
        4,
        "4 A SERVED SETPRT 00000000 1 UR DISKFAULT\n",
        "the seat's last transfers aren't lost",
    ),
    (
        4,
        "4 A SERVED LKWSET 00000000 1 OK 1\n",
        "the process may not have as many pages locked or pinned, 1 of 0 pages",
    ),
    (
        4,
        "4 A SERVED PURGWS 00000000 4 OK\n",
        "valid pages of the range are neither locked nor pinned; 0 of 1 are",
    ),
    (
        4,
        "4 A SERVED ULWSET 00000000 1 OK 1\n",
        "another number of pages is counted, 0",
    ),
    (5, "PFN AT 5\n", "the line that comes here is PFN AT 4"),
];

const IN_OUT_AND_IN_AGAIN: [Wrong; 25] = [
    (
        18,
        "18 B OUT F0 X:A/1\n",
        "the slot has no page that is valid in the frame",
    ),
    (
        18,
        "18 B EVICT A 00000000 F0 LEAVE MODIFIED\n",
        "the page isn't written to its swap block yet",
    ),
    (
        19,
        "19 B OUT F1 X:A/2\n",
        "the block isn't the one behind X:A/0, that of the seat's last transfer",
    ),
    (
        19,
        "19 B OUT F0 X:A/1\n",
        "the slot has no page that is valid in the frame",
    ),
    (
        19,
        "19 B DONE W1 00000600 04\n",
        "the seat has an open transfer, and the entry is none that goes with one",
    ),
    (
        19,
        "19 SWP OUT F0 X:A/0\n",
        "the block has an open transfer",
    ),
    (
        23,
        "23 B OUTOK F1 18\n",
        "that transfer is of another frame, F0",
    ),
    (23, "23 A OUTOK F0 18\n", "that transfer is another seat's"),
    (23, "23 B INOK F0 18\n", "that transfer goes the other way"),
    (
        23,
        "23 B OUTFAIL F0 18 1 2\n",
        "the block's count of failures before it is another one, 0",
    ),
    (
        23,
        "23 B OUTFAIL F0 18 0 0\n",
        "the block's count of failures after it isn't above the one before",
    ),
    (
        24,
        "24 B OUT F0 X:A/5\n",
        "transfers of the seat have landed, 1, and the next one begins when all have",
    ),
    (
        28,
        "28 B OUT F0 X:A/0\n",
        "the page lies in the block already, and isn't modified",
    ),
    (
        28,
        "28 B EVICT A 00000000 F0 LEAVE MODIFIED\n",
        "the frame goes to another state, FREE",
    ),
    (
        28,
        "28 B TURN A GONE\n",
        "pages that aren't pinned are left in the working set, 5",
    ),
    (
        34,
        "34 B ZERO 00000600 F0\n",
        "the frame still holds A/00000000, and gives it up first",
    ),
    (
        37,
        "37 A DONE R1 00000400 03\n",
        "the process isn't RESIDENT, but GONE",
    ),
    (
        38,
        "38 A BACK A 00000200 F1 MODIFIED\n",
        "the frame's state is another one, FREE",
    ),
    (
        55,
        "55 A TURN B COMING\n",
        "the process is in another status, LEAVING",
    ),
    (56, "56 A TURN B COMING\n", "another process is coming"),
    (
        57,
        "57 A IN F5 X:B/0 COME A/00000000\n",
        "the block isn't one of the process's swap blocks",
    ),
    (
        57,
        "57 A IN F5 X:A/1 COME A/00000000\n",
        "the page lies in another block, X:A/0",
    ),
    (
        57,
        "57 A TURN A RESIDENT\n",
        "a page of the process still lies in a swap block",
    ),
    (
        58,
        "58 A TURN A LEAVING\n",
        "the seat has an open transfer, and the entry is none that goes with one",
    ),
    (
        58,
        "58 B TURN A LEAVING\n",
        "the seat has an open transfer, and the entry is none that goes with one",
    ),
];

const IN_WRITTEN_TOGETHER: [Wrong; 7] = [
    (
        5,
        "5 A EVICT A 00000200 F1 REPLACE MODIFIED\n",
        "the page isn't the victim, which is in slot 0",
    ),
    (
        5,
        "5 A ZERO 00000400 F2\n",
        "the working set is full, with 2 of 2 pages",
    ),
    (
        6,
        "6 A BACK A 00000000 F0 FREE\n",
        "the frame's state is another one, MODIFIED",
    ),
    (
        13,
        "13 A OUT F1 P:2\n",
        "the block isn't the one behind P:0, that of the seat's last transfer",
    ),
    (
        13,
        "13 A IN F3 P:1 FAULT A/00000000\n",
        "the seat's open transfers go the other way",
    ),
    (
        16,
        "16 A OUTOK F1 14\n",
        "that transfer is of another frame, F2",
    ),
    (
        23,
        "23 A IN F1 P:1 FAULT A/00000000\n",
        "the page lies in another block, P:0",
    ),
];

const IN_WAITING_FOR_A_WRITE: [Wrong; 2] = [
    (
        8,
        "8 A EVICT A 00000200 F1 REPLACE MODIFIED\n",
        "the modified list has as many frames as it may have, 1",
    ),
    (
        8,
        "8 A BACK A 00000000 F0 MODIFIED\n",
        "the working set is full, with 2 of 2 pages",
    ),
];

const IN_NEIGHBOURS: [Wrong; 6] = [
    (
        2,
        "2 A IN F1 S:LIB/1 NEAR LIB/1\n",
        "the block isn't the one behind S:#0/1, that of the seat's last transfer",
    ),
    (
        2,
        "2 A IN F1 S:LIB/2 FAULT A/00000400\n",
        "a read for a fault is the first of its transfers, and the seat has an open one",
    ),
    (
        2,
        "2 A IN F1 S:LIB/2 NEAR A/00000400\n",
        "the page isn't of the process or the section of the page that was read before",
    ),
    (
        2,
        "2 A BACK A 00000200 F0 READING\n",
        "the seat has an open transfer, and the entry is none that goes with one",
    ),
    (11, "PFN AT 11\n", "the line that comes here is PFN AT 10"),
    (
        18,
        "11 MPW EVICT A 00000400 F1 RUNDOWN FREE\n",
        "no rundown makes this entry next",
    ),
];

const IN_TWO_AT_MOST: [Wrong; 1] = [(
    3,
    "3 A IN F2 S:LIB/2 NEAR LIB/2\n",
    "the seat has as many transfers as a cluster may have, 2",
)];

const IN_SHARED_PAGE: [Wrong; 8] = [
    (
        2,
        "2 B BACK B 00000000 F0 READING\n",
        "a page in a frame of that state doesn't come back",
    ),
    (
        3,
        "3 A OUT F0 X:A/0\n",
        "the page is one of a shared section",
    ),
    (
        20,
        "12 MPW EVICT A 00000200 F1 RUNDOWN MODIFIED\n",
        "the page is a process's own",
    ),
    (
        21,
        "13 MPW OUT F0 P:0\n",
        "the page is written to another block, S:#0/0",
    ),
    (
        2,
        "2 B COLLIDE 00000000 F1 1\n",
        "that transfer is of another frame, F0",
    ),
    (
        2,
        "2 A COLLIDE 00000000 F0 1\n",
        "the seat has an open transfer, and the entry is none that goes with one",
    ),
    (
        20,
        "12 MPW EVICT B 00000000 F0 RUNDOWN FREE\n",
        "the frame goes to another state, MODIFIED",
    ),
    (23, "STATUS 5\n", "the line that comes here is STATUS 0"),
];

const IN_GROWING_LIMIT: [Wrong; 3] = [
    (
        7,
        "7 A DONE R1 00000400 00\n",
        "the limit is adjusted first, after 4 references",
    ),
    (
        7,
        "7 A LIMIT 2 3\n",
        "another number of faults is counted since the last adjustment, 2",
    ),
    (18, "18 A LIMIT 4 3\n", "the rule gives another limit, 3"),
];

const IN_DELETIONS: [Wrong; 2] = [
    (5, "5 A DONE R4 00000200 00000000\n", "the page isn't valid"),
    (
        7,
        "7 A ZERO 00000400 F1\n",
        "each block of the page file is promised to a page, all 1",
    ),
];

const IN_LOCKS: [Wrong; 4] = [
    (
        5,
        "5 A SERVED LKWSET 00000000 1 OK 2\n",
        "another number of pages is counted, 1",
    ),
    (
        5,
        "5 A SERVED LKWSET 00000000 1 LOCKLIMIT\n",
        "the process may have as many pages locked or pinned, 1 of 1 pages",
    ),
    (
        9,
        "9 A EVICT A 00000000 F0 PURGE MODIFIED\n",
        "the page is locked or pinned",
    ),
    (
        13,
        "13 A DONE W1 00000000 01\n",
        "the protection of the page doesn't allow the reference",
    ),
];

const IN_COLLISION: [Wrong; 6] = [
    (
        3,
        "3 B COLLIDE 00000000 F0 1\n",
        "the collision with that read was named before",
    ),
    (
        3,
        "3 A INFAIL F0 1 0 0\n",
        "the block's count of failures after it isn't above the one before",
    ),
    (
        4,
        "4 B IN F1 S:LIB/0 FAULT B/00000000\n",
        "a read has failed, and next comes the reuse of its frame, F0, by its seat",
    ),
    (
        5,
        "5 A DENIED R1 00000200 DISKFAULT\n",
        "the read that was lost was for another page, at 00000000",
    ),
    (
        5,
        "5 A SERVED SETPRT 00000000 1 UR DISKFAULT\n",
        "the process is RESIDENT, and the service meets no failed transfer",
    ),
    (
        6,
        "6 A DENIED R1 00000000 DISKFAULT\n",
        "the seat's last transfers aren't lost",
    ),
];

// The first lines of a legal log that the serial run doesn't write: a page comes back while it is written, its
// process leaves, and comes back with its other page still on the modified list. There are four good frames.
const LEGAL_OTHERWISE: &str = "VMTRACE 1\n\
FRAMES 8\n\
PAGEFILE 4\n\
BAD 4\n\
BAD 5\n\
BAD 6\n\
BAD 7\n\
SECTION LIB SHARED 1\n\
PROCESS A 2 2 2 0\n\
PROCESS B 2 2 2 0\n\
MAPZERO A 00000000 1 UW\n\
MAPSEC A 00000200 1 LIB 0 UW\n\
MAPZERO B 00000000 2 UW\n\
BODY\n\
A W1 00000200 07\n\
END\n";

const LEGAL_OTHERWISE_TEXT: &str = "1 B ZERO 00000000 F0\n\
2 B ZERO 00000200 F1\n\
3 A IN F2 S:LIB/0 FAULT A/00000200\n\
4 A INOK F2 3\n\
5 A DONE W1 00000200 07\n\
6 A ZERO 00000000 F3\n\
7 A EVICT A 00000000 F3 PURGE MODIFIED\n\
8 MPW OUT F3 P:0\n\
9 A BACK A 00000000 F3 WRITING\n\
10 A TURN A LEAVING\n\
11 MPW OUTOK F3 8\n\
12 SWP OUT F3 X:A/1\n\
13 SWP OUTOK F3 12\n\
14 SWP EVICT A 00000000 F3 LEAVE FREE\n\
15 SWP EVICT A 00000200 F2 LEAVE MODIFIED\n\
16 SWP TURN A GONE\n\
17 SWP TURN A COMING\n\
18 SWP REUSE F3 A/00000000\n\
19 SWP IN F3 X:A/1 COME A/00000000\n";

const IN_LEGAL_OTHERWISE: [Wrong; 4] = [
    (
        9,
        "9 A SERVED DELTVA 00000000 1 OK\n",
        "a page of the range has an open transfer",
    ),
    (
        11,
        "11 SWP OUT F3 X:A/1\n",
        "the frame has an open transfer",
    ),
    (
        18,
        "18 A BACK A 00000200 F2 MODIFIED\n",
        "a page of a coming process comes back from the free list alone",
    ),
    (
        20,
        "20 A TURN A LEAVING\n",
        "a page of the process is being read back",
    ),
];

// What is said beside the verdict on a trace and a log.
fn said<R: Threads + Wait + Sync>(
    rt: &R,
    alloc: Global,
    text: &[u8],
) -> Result<(Status, Vec<u8>), NoMemory> {
    let words: &[&[u8]] = &[b"neqysbar", b"check"];
    let mut arguments = ListedArguments::new(words);
    let mut ends = CallEnds {
        source: MemorySource::new(Vec::from_slice(alloc, text)?, Vec::new(alloc)),
        output: MemorySink::new(alloc, 1000, Vec::new(alloc), Vec::new(alloc))?,
        depot: MemoryDepot::new(alloc, Vec::new(alloc)),
    };
    let mut messages = MemorySink::new(alloc, 2000, Vec::new(alloc), Vec::new(alloc))?;
    let ended = run_and_explain(rt, alloc, &mut arguments, &mut ends, &mut messages);
    Ok((ended, Vec::from_slice(alloc, messages.taken())?))
}

// The message about a line with these words behind its number.
fn message(alloc: Global, number: usize, words: &str) -> Result<Vec<u8>, Fail> {
    let text = format!(in alloc; "neqysbar: log line {number}{words}\n")?;
    Ok(Vec::from_slice(alloc, text.as_bytes())?)
}

// Each line of a table in the place of the log's own.
pub(super) fn explains<R: Threads + Wait + Sync>(
    rt: &R,
    alloc: Global,
    trace: &str,
    log: &str,
    table: &[Wrong],
) -> Result<bool, Fail> {
    for row in table {
        let (number, line, why) = *row;
        let text = input(alloc, trace, log, Change::Line(number, line))?;
        let told = said(rt, alloc, &text)?;
        let shown = line.trim_end();
        let words = format!(in alloc; ": {shown}: {why}")?;
        if told.0 != Status(8) || told.1 != message(alloc, number, &words)? {
            return Ok(false);
        }
    }
    Ok(true)
}

#[test]
fn says_why_a_line_is_wrong(rt: HostRuntime) -> Result<(), Fail> {
    let alloc = rt.alloc();
    assert!(rt; explains(&rt, alloc, FIRST_RUN, FIRST_RUN_TEXT, &IN_FIRST_RUN)?);
    assert!(rt;
        explains(
            &rt,
            alloc,
            OUT_AND_IN_AGAIN,
            OUT_AND_IN_AGAIN_TEXT,
            &IN_OUT_AND_IN_AGAIN
        )?
    );
    assert!(rt;
        explains(
            &rt,
            alloc,
            WRITTEN_TOGETHER,
            WRITTEN_TOGETHER_TEXT,
            &IN_WRITTEN_TOGETHER
        )?
    );
    assert!(rt;
        explains(
            &rt,
            alloc,
            WAITING_FOR_A_WRITE,
            WAITING_FOR_A_WRITE_TEXT,
            &IN_WAITING_FOR_A_WRITE
        )?
    );
    assert!(rt; explains(&rt, alloc, NEIGHBOURS, NEIGHBOURS_TEXT, &IN_NEIGHBOURS)?);
    assert!(rt; explains(&rt, alloc, TWO_AT_MOST, TWO_AT_MOST_TEXT, &IN_TWO_AT_MOST)?);
    assert!(rt; explains(&rt, alloc, SHARED_PAGE, SHARED_PAGE_TEXT, &IN_SHARED_PAGE)?);
    assert!(rt;
        explains(
            &rt,
            alloc,
            GROWING_LIMIT,
            GROWING_LIMIT_TEXT,
            &IN_GROWING_LIMIT
        )?
    );
    assert!(rt; explains(&rt, alloc, DELETIONS, DELETIONS_TEXT, &IN_DELETIONS)?);
    assert!(rt; explains(&rt, alloc, LOCKS, LOCKS_TEXT, &IN_LOCKS)?);
    assert!(rt; explains(&rt, alloc, COLLISION, COLLISION_TEXT, &IN_COLLISION)?);
    assert!(rt;
        explains(
            &rt,
            alloc,
            LEGAL_OTHERWISE,
            LEGAL_OTHERWISE_TEXT,
            &IN_LEGAL_OTHERWISE
        )?
    );
    Ok(())
}

// A log that ends, and one that goes on, in other places than at a line's end.
#[test]
fn says_where_a_log_ends(rt: HostRuntime) -> Result<(), Fail> {
    let alloc = rt.alloc();
    let table: [(usize, &'static str, usize, &str); 4] = [
        (5, "", 6, " is missing: the log is right as far as it goes"),
        (4, "PFN AT 4", 5, ": PFN AT 4: the log ends within the line"),
        (10, "\n", 11, ": : no line comes here"),
        (
            0,
            "1111111111111111111111111111111111111111111111111111111111111111111111111111111111111111111111111111111111111111111111111111111111111111111111111111111111111111111111111111111111111111111111111111111111111111111111111111111111111111111111111111111111111111\n",
            1,
            ": 11111111111111111111111111111111111111111111111111111111111111111111111111111111: the line has more than 255 bytes",
        ),
    ];
    for (lines, end, number, words) in table {
        let text = input(alloc, FIRST_RUN, FIRST_RUN_TEXT, Change::End(lines, end))?;
        let told = said(&rt, alloc, &text)?;
        assert_eq!(rt; told.0, Status(8));
        assert_eq!(rt; told.1, message(alloc, number, words)?);
    }
    Ok(())
}
