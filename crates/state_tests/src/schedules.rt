//! Schedules whose lines were worked out by hand.

use crate::schedule::Schedule;
use seat_schedules::Act;
use vm_types::{Proc, Seat};

pub const A: Seat = Seat(0);

pub const B: Seat = Seat(1);

/// The writer's seat beside one process.
const MPW: Seat = Seat(1);

/// The swapper's seat beside two processes.
const SWP: Seat = Seat(3);

/// Four pages of zeros, of which the process has two in its working set.
const ONE: &[u8] = b"VMTRACE 1\n\
FRAMES 8\n\
PAGEFILE 4\n\
PROCESS A 2 2 2 0\n\
MAPZERO A 00000000 4 UW\n\
BODY\n\
A W1 00000000 01\n\
A W1 00000200 02\n\
A W1 00000400 03\n\
A W1 00000000 09\n\
A R1 00000200\n\
A R1 00000400\n\
A R1 00000000\n\
END\n";

/// The same, and the first call of the first block of the page file fails.
const FAILING: &[u8] = b"VMTRACE 1\n\
FRAMES 8\n\
PAGEFILE 4\n\
PROCESS A 2 2 2 0\n\
MAPZERO A 00000000 4 UW\n\
FAIL P:0 1\n\
BODY\n\
A W1 00000000 01\n\
A W1 00000200 02\n\
A W1 00000400 03\n\
A W1 00000000 09\n\
A R1 00000200\n\
A R1 00000400\n\
A R1 00000000\n\
END\n";

/// A page is used, changed and replaced while it is written. Then it is written again, and used.
const USED: &[(Seat, Act)] = &[
    (A, Act::Ask(0)),
    (A, Act::Ask(1)),
    (A, Act::Ask(2)),
    (A, Act::Ask(2)),
    (MPW, Act::Write),
    (A, Act::Ask(3)),
    (A, Act::Ask(3)),
    (A, Act::Ask(4)),
    (A, Act::Ask(4)),
    (A, Act::Ask(5)),
    (A, Act::Ask(5)),
    (MPW, Act::Land),
    (MPW, Act::Write),
    (MPW, Act::Land),
    (A, Act::Ask(6)),
    (A, Act::Ask(6)),
];

/// The write goes well: it finds the page changed, so that the page stays modified.
const WRITTEN: Schedule = Schedule {
    trace: ONE,
    steps: USED,
    lines: b"1 A ZERO 00000000 F0\n\
2 A DONE W1 00000000 01\n\
3 A ZERO 00000200 F1\n\
4 A DONE W1 00000200 02\n\
5 A EVICT A 00000000 F0 REPLACE MODIFIED\n\
6 A ZERO 00000400 F2\n\
7 A DONE W1 00000400 03\n\
8 MPW OUT F0 P:0\n\
9 A EVICT A 00000200 F1 REPLACE MODIFIED\n\
10 A BACK A 00000000 F0 WRITING\n\
11 A DONE W1 00000000 09\n\
12 A EVICT A 00000400 F2 REPLACE MODIFIED\n\
13 A BACK A 00000200 F1 MODIFIED\n\
14 A DONE R1 00000200 02\n\
15 A EVICT A 00000000 F0 REPLACE RELEASE\n\
16 A BACK A 00000400 F2 MODIFIED\n\
17 A DONE R1 00000400 03\n\
18 MPW OUTOK F0 8\n\
19 MPW OUT F0 P:0\n\
20 MPW OUTOK F0 19\n\
21 A EVICT A 00000200 F1 REPLACE MODIFIED\n\
22 A BACK A 00000000 F0 FREE\n\
23 A DONE R1 00000000 09\n",
};

/// The same, and the write fails.
const WRITTEN_BADLY: Schedule = Schedule {
    trace: FAILING,
    steps: USED,
    lines: b"1 A ZERO 00000000 F0\n\
2 A DONE W1 00000000 01\n\
3 A ZERO 00000200 F1\n\
4 A DONE W1 00000200 02\n\
5 A EVICT A 00000000 F0 REPLACE MODIFIED\n\
6 A ZERO 00000400 F2\n\
7 A DONE W1 00000400 03\n\
8 MPW OUT F0 P:0\n\
9 A EVICT A 00000200 F1 REPLACE MODIFIED\n\
10 A BACK A 00000000 F0 WRITING\n\
11 A DONE W1 00000000 09\n\
12 A EVICT A 00000400 F2 REPLACE MODIFIED\n\
13 A BACK A 00000200 F1 MODIFIED\n\
14 A DONE R1 00000200 02\n\
15 A EVICT A 00000000 F0 REPLACE RELEASE\n\
16 A BACK A 00000400 F2 MODIFIED\n\
17 A DONE R1 00000400 03\n\
18 MPW OUTFAIL F0 8 0 1\n\
19 MPW OUT F0 P:0\n\
20 MPW OUTOK F0 19\n\
21 A EVICT A 00000200 F1 REPLACE MODIFIED\n\
22 A BACK A 00000000 F0 FREE\n\
23 A DONE R1 00000000 09\n",
};

/// A write fails, and the page is written again.
const WRITTEN_AGAIN: Schedule = Schedule {
    trace: FAILING,
    steps: &[
        (A, Act::Ask(0)),
        (A, Act::Ask(1)),
        (A, Act::Ask(2)),
        (A, Act::Ask(2)),
        (MPW, Act::Write),
        (MPW, Act::Land),
        (MPW, Act::Write),
        (MPW, Act::Land),
    ],
    lines: b"1 A ZERO 00000000 F0\n\
2 A DONE W1 00000000 01\n\
3 A ZERO 00000200 F1\n\
4 A DONE W1 00000200 02\n\
5 A EVICT A 00000000 F0 REPLACE MODIFIED\n\
6 A ZERO 00000400 F2\n\
7 A DONE W1 00000400 03\n\
8 MPW OUT F0 P:0\n\
9 MPW OUTFAIL F0 8 0 1\n\
10 MPW OUT F0 P:0\n\
11 MPW OUTOK F0 10\n",
};

/// Two processes share a page, and the first call of its block fails.
pub const SHARED: &[u8] = b"VMTRACE 1\n\
FRAMES 8\n\
PAGEFILE 4\n\
SECTION LIB SHARED 1\n\
PROCESS A 2 2 2 0\n\
PROCESS B 2 2 2 0\n\
MAPSEC A 00000000 1 LIB 0 UW\n\
MAPSEC B 00000000 1 LIB 0 UW\n\
FAIL S:LIB/0 1\n\
BODY\n\
A R1 00000000\n\
B R1 00000000\n\
END\n";

/// A page is read that another seat's read failed to get.
const COLLIDED: Schedule = Schedule {
    trace: SHARED,
    steps: &[
        (A, Act::Ask(0)),
        (B, Act::Ask(1)),
        (A, Act::Land),
        (A, Act::Refuse),
        (B, Act::Ask(1)),
        (B, Act::Land),
        (B, Act::Ask(1)),
    ],
    lines: b"1 A IN F0 S:LIB/0 FAULT A/00000000\n\
2 B COLLIDE 00000000 F0 1\n\
3 A INFAIL F0 1 0 1\n\
4 A REUSE F0 LIB/0\n\
5 A DENIED R1 00000000 DISKFAULT\n\
6 B IN F0 S:LIB/0 FAULT B/00000000\n\
7 B INOK F0 6\n\
8 B DONE R1 00000000 00\n",
};

/// Four pages of zeros are written, so that two are on the modified list.
const CLUSTERING: &[u8] = b"VMTRACE 1\n\
FRAMES 8\n\
PAGEFILE 4\n\
PROCESS A 2 2 2 0\n\
MAPZERO A 00000000 4 UW\n\
BODY\n\
A W1 00000000 01\n\
A W1 00000200 02\n\
A W1 00000400 03\n\
A W1 00000600 04\n\
END\n";

/// Two pages are written together.
const CLUSTERED: Schedule = Schedule {
    trace: CLUSTERING,
    steps: &[
        (A, Act::Ask(0)),
        (A, Act::Ask(1)),
        (A, Act::Ask(2)),
        (A, Act::Ask(2)),
        (A, Act::Ask(3)),
        (A, Act::Ask(3)),
        (MPW, Act::Write),
        (MPW, Act::Land),
    ],
    lines: b"1 A ZERO 00000000 F0\n\
2 A DONE W1 00000000 01\n\
3 A ZERO 00000200 F1\n\
4 A DONE W1 00000200 02\n\
5 A EVICT A 00000000 F0 REPLACE MODIFIED\n\
6 A ZERO 00000400 F2\n\
7 A DONE W1 00000400 03\n\
8 A EVICT A 00000200 F1 REPLACE MODIFIED\n\
9 A ZERO 00000600 F3\n\
10 A DONE W1 00000600 04\n\
11 MPW OUT F0 P:0\n\
12 MPW OUT F1 P:1\n\
13 MPW OUTOK F0 11\n\
14 MPW OUTOK F1 12\n",
};

/// The limit of the first process is adjusted after two references.
const SWAPPING: &[u8] = b"VMTRACE 1\n\
FRAMES 8\n\
PAGEFILE 4\n\
PARAM AWSTIME 2\n\
SECTION LIB SHARED 1\n\
PROCESS A 2 3 4 0\n\
PROCESS B 2 2 2 0\n\
MAPZERO A 00000000 1 UW\n\
MAPSEC B 00000000 1 LIB 0 UW\n\
BODY\n\
B R1 00000000\n\
A W1 00000000 01\n\
A R1 00000000\n\
A ADJWSL 3\n\
A R1 00000000\n\
END\n";

/// The first process leaves while a read of the second one is open.
const SWAPPED: Schedule = Schedule {
    trace: SWAPPING,
    steps: &[
        (B, Act::Ask(0)),
        (A, Act::Ask(1)),
        (A, Act::Ask(2)),
        (A, Act::Ask(3)),
        (A, Act::Ask(4)),
        (A, Act::Ask(4)),
        (SWP, Act::Choose),
        (SWP, Act::Leave(Proc(0))),
        (B, Act::Land),
        (SWP, Act::Land),
        (SWP, Act::Leave(Proc(0))),
        (SWP, Act::Leave(Proc(0))),
        (B, Act::Ask(0)),
    ],
    lines: b"1 B IN F0 S:LIB/0 FAULT B/00000000\n\
2 A ZERO 00000000 F1\n\
3 A DONE W1 00000000 01\n\
4 A DONE R1 00000000 01\n\
5 A SERVED ADJWSL 3 OK\n\
6 A LIMIT 3 1\n\
7 A DONE R1 00000000 01\n\
8 SWP TURN A LEAVING\n\
9 SWP OUT F1 X:A/0\n\
10 B INOK F0 1\n\
11 SWP OUTOK F1 9\n\
12 SWP EVICT A 00000000 F1 LEAVE FREE\n\
13 SWP TURN A GONE\n\
14 B DONE R1 00000000 00\n",
};

/// All of them.
pub fn all() -> [Schedule; 6] {
    [
        WRITTEN,
        WRITTEN_BADLY,
        WRITTEN_AGAIN,
        COLLIDED,
        CLUSTERED,
        SWAPPED,
    ]
}

pub fn written() -> Schedule {
    WRITTEN
}

pub fn written_badly() -> Schedule {
    WRITTEN_BADLY
}

pub fn written_again() -> Schedule {
    WRITTEN_AGAIN
}
