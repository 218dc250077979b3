//! Statuses and texts that don't depend on the schedule: those of one process, for which the modified page
//! writer and the swapper have nothing to do, and those of calls that run nothing.

use crate::replays::{Failing, replayed};
use program_runs::{FIRST_RUN, FIRST_RUN_TEXT};
use replay_cli::Status;
use std::test::*;

/// The words, the trace, the calls that fail, the status, and the text.
type Row<'a> = (&'a [&'a str], &'a str, Failing<'a>, u8, &'a str);

const NONE: Failing<'static> = Failing {
    reads: &[],
    writes: &[],
    makes: &[],
};

const NO_READ: Failing<'static> = Failing {
    reads: &[1],
    ..NONE
};

const NO_WRITE: Failing<'static> = Failing {
    writes: &[1],
    ..NONE
};

const NO_BLOCK: Failing<'static> = Failing {
    makes: &[1],
    ..NONE
};

/// A shared page is written to, and its block fails whenever it is written.
const DIRTY: &str =
    "VMTRACE 1\nFRAMES 8\nPAGEFILE 4\nSECTION CNT SHARED 1\nPROCESS A 4 4 4 0\nMAPSEC A 00000000 1 CNT 0 UW\nFAIL S:CNT/0 2 3 4 5 6 7\nBODY\nA W1 00000000 07\nEND\n";

#[test]
fn ends_as_serial_does(rt: HostRuntime) -> Result<(), Fail> {
    let replay = ["replay"].as_slice();
    let table: [Row<'_>; 7] = [
        (replay, FIRST_RUN, NONE, 0, FIRST_RUN_TEXT),
        (&["replay", "now"], FIRST_RUN, NONE, 1, "STATUS 1\n"),
        (&["serial"], FIRST_RUN, NONE, 0, FIRST_RUN_TEXT),
        (
            replay,
            "VMTRACE 3\n",
            NONE,
            2,
            "TRACE 1 OUTOFRANGE\nSTATUS 2\n",
        ),
        (replay, FIRST_RUN, NO_READ, 3, "STATUS 3\n"),
        (replay, FIRST_RUN, NO_WRITE, 4, ""),
        (replay, FIRST_RUN, NO_BLOCK, 6, "STATUS 6\n"),
    ];
    for (words, trace, failing, status, text) in table {
        let (told, log, _) = replayed(&rt, rt.alloc(), words, trace.as_bytes(), failing)?;
        assert_eq!(rt; told, Status(status));
        assert_eq!(rt; log.as_slice(), text.as_bytes());
    }
    Ok(())
}

// A page that can't be written stays dirty, and its line comes before the status.
#[test]
fn dirty_pages_are_told(rt: HostRuntime) -> Result<(), Fail> {
    let (status, log, _) = replayed(&rt, rt.alloc(), &["replay"], DIRTY.as_bytes(), NONE)?;
    assert_eq!(rt; status, Status(5));
    assert!(rt; log.as_slice().ends_with(b"STATUS 5\n"));
    Ok(())
}
