//! What `check` says of logs, and of input that has none.

use program_runs::{FIRST_RUN, FIRST_RUN_TEXT, outcome};
use replay_cli::Status;
use std::alloc::Global;
use std::test::Fail;
use vm_types::NoMemory;
use worked_runs::{
    COLLISION, COLLISION_TEXT, COPIES, COPIES_TEXT, DIRTY_PAGE, DIRTY_PAGE_TEXT, GROWING_LIMIT,
    GROWING_LIMIT_TEXT, LAST_PAGES, LAST_PAGES_TEXT, LEFT_OVER, LEFT_OVER_TEXT, LOCKS, LOCKS_TEXT,
    NEIGHBOURS, NEIGHBOURS_TEXT, OUT_AND_IN_AGAIN, OUT_AND_IN_AGAIN_TEXT, SHARED_PAGE,
    SHARED_PAGE_TEXT, WRITTEN_TOGETHER, WRITTEN_TOGETHER_TEXT,
};

// How a log differs from the one that a run writes.
#[derive(Clone, Copy)]
pub(super) enum Change {
    // This stands in the place of the line of this number.
    Line(usize, &'static str),
    // So many lines stand, and this behind them.
    End(usize, &'static str),
}

// No log here has so many lines.
const WHOLE: Change = Change::End(1000, "");

// So many lines, and the bytes behind them.
fn parted(log: &[u8], lines: usize) -> (&[u8], &[u8]) {
    let mut left = lines;
    for (at, byte) in log.iter().enumerate() {
        if left == 0 {
            return log.split_at(at);
        }
        if *byte == b'\n' {
            left -= 1;
        }
    }
    log.split_at(log.len())
}

// The trace, the line LOG, and the log with its change.
pub(super) fn input(
    alloc: Global,
    trace: &str,
    log: &str,
    change: Change,
) -> Result<Vec<u8>, NoMemory> {
    let log = log.as_bytes();
    let mut text = Vec::from_slice(alloc, trace.as_bytes())?;
    text.extend_from_slice(b"LOG\n")?;
    match change {
        Change::Line(number, line) => {
            text.extend_from_slice(parted(log, number.saturating_sub(1)).0)?;
            text.extend_from_slice(line.as_bytes())?;
            text.extend_from_slice(parted(log, number).1)?;
        }
        Change::End(lines, end) => {
            text.extend_from_slice(parted(log, lines).0)?;
            text.extend_from_slice(end.as_bytes())?;
        }
    }
    Ok(text)
}

// Trace, log, its change, status and text. A log may begin as that of a run and go wrong at one word: of an entry
// line, a transfer's number or block, the report, the rundown, or a status; or it ends too early or too late.
#[test]
fn judges_logs(rt: HostRuntime) -> Result<(), Fail> {
    let together = (WRITTEN_TOGETHER, WRITTEN_TOGETHER_TEXT);
    let shared = (SHARED_PAGE, SHARED_PAGE_TEXT);
    let swapped = (OUT_AND_IN_AGAIN, OUT_AND_IN_AGAIN_TEXT);
    let first = (FIRST_RUN, FIRST_RUN_TEXT);
    let table: [((&str, &str), Change, u8, &str); 16] = [
        (first, WHOLE, 0, "LOG OK 4\nSTATUS 0\n"),
        (
            first,
            Change::Line(3, "3 A DONE R4 00000000 0000002B\n"),
            8,
            "LOG FAULT 3\nSTATUS 8\n",
        ),
        (first, Change::End(5, ""), 8, "LOG FAULT 6\nSTATUS 8\n"),
        (
            first,
            Change::End(4, "PFN AT 4"),
            8,
            "LOG FAULT 5\nSTATUS 8\n",
        ),
        (first, Change::End(10, "\n"), 8, "LOG FAULT 11\nSTATUS 8\n"),
        (together, WHOLE, 0, "LOG OK 25\nSTATUS 0\n"),
        (
            together,
            Change::Line(13, "13 A OUT F1 P:2\n"),
            8,
            "LOG FAULT 13\nSTATUS 8\n",
        ),
        (
            together,
            Change::Line(16, "16 A OUTOK F1 14\n"),
            8,
            "LOG FAULT 16\nSTATUS 8\n",
        ),
        (
            together,
            Change::Line(23, "23 A IN F1 P:1 FAULT A/00000000\n"),
            8,
            "LOG FAULT 23\nSTATUS 8\n",
        ),
        (shared, WHOLE, 0, "LOG OK 14\nSTATUS 0\n"),
        (
            shared,
            Change::Line(14, "FRAME 0 ACTIVE LIB/0 MODIFY 0 REFS 1 SHARES 1\n"),
            8,
            "LOG FAULT 14\nSTATUS 8\n",
        ),
        (
            shared,
            Change::Line(20, "12 MPW EVICT B 00000000 F0 RUNDOWN FREE\n"),
            8,
            "LOG FAULT 20\nSTATUS 8\n",
        ),
        (
            shared,
            Change::Line(23, "STATUS 5\n"),
            8,
            "LOG FAULT 23\nSTATUS 8\n",
        ),
        (swapped, WHOLE, 0, "LOG OK 60\nSTATUS 0\n"),
        (
            swapped,
            Change::Line(46, "46 A OUT F0 X:B/4\n"),
            8,
            "LOG FAULT 46\nSTATUS 8\n",
        ),
        (
            swapped,
            Change::Line(55, "55 A TURN B COMING\n"),
            8,
            "LOG FAULT 55\nSTATUS 8\n",
        ),
    ];
    for ((trace, log), change, status, written) in table {
        let text = input(rt.alloc(), trace, log, change)?;
        let told = outcome(rt.alloc(), &["check"], &text, &[], &[], &[], &[])?;
        assert_eq!(rt; told.0, Status(status));
        assert_eq!(rt; told.1.as_slice(), written.as_bytes());
    }
    Ok(())
}

// What stands behind a trace, its answer, and one read or write that fails: the first read is that of the trace.
#[test]
fn ends_a_check_early(rt: HostRuntime) -> Result<(), Fail> {
    let alloc = rt.alloc();
    let words: &[&str] = &["check"];
    let unfinished = b"TRACE UNFINISHED\nSTATUS 2\n".as_slice();
    let table: [(&[u8], &[u32], &[u32], u8, &[u8]); 6] = [
        (b"", &[], &[], 2, unfinished),
        (b"\n! LOG\n", &[], &[], 2, unfinished),
        (
            b"\nA R1 00000000\nLOG\n",
            &[],
            &[],
            2,
            b"TRACE 12 MISPLACED\nSTATUS 2\n",
        ),
        (b"LOG\n", &[1], &[], 3, b"STATUS 3\n"),
        (b"LOG\n", &[], &[1], 4, b""),
        (b"LOG\n", &[], &[2], 4, b"LOG FAULT 1\n"),
    ];
    for (behind, read_fails, write_fails, status, written) in table {
        let mut text = Vec::from_slice(alloc, FIRST_RUN.as_bytes())?;
        text.extend_from_slice(behind)?;
        let told = outcome(alloc, words, &text, read_fails, write_fails, &[], &[])?;
        assert_eq!(rt; told.0, Status(status));
        assert_eq!(rt; told.1.as_slice(), written);
    }
    Ok(())
}

// Logs with entries of all sixteen kinds, of failing blocks, services, an adjusted limit, a copied page and a page
// of the stack.
#[test]
fn judges_whole_logs(rt: HostRuntime) -> Result<(), Fail> {
    let table: [(&str, &str, &str); 8] = [
        (COLLISION, COLLISION_TEXT, "LOG OK 9\nSTATUS 0\n"),
        (DIRTY_PAGE, DIRTY_PAGE_TEXT, "LOG OK 16\nSTATUS 0\n"),
        (GROWING_LIMIT, GROWING_LIMIT_TEXT, "LOG OK 19\nSTATUS 0\n"),
        (LOCKS, LOCKS_TEXT, "LOG OK 13\nSTATUS 0\n"),
        (COPIES, COPIES_TEXT, "LOG OK 6\nSTATUS 0\n"),
        (LAST_PAGES, LAST_PAGES_TEXT, "LOG OK 5\nSTATUS 0\n"),
        (LEFT_OVER, LEFT_OVER_TEXT, "LOG OK 62\nSTATUS 0\n"),
        (NEIGHBOURS, NEIGHBOURS_TEXT, "LOG OK 13\nSTATUS 0\n"),
    ];
    for (trace, log, written) in table {
        let text = input(rt.alloc(), trace, log, WHOLE)?;
        let told = outcome(rt.alloc(), &["check"], &text, &[], &[], &[], &[])?;
        assert_eq!(rt; told.0, Status(0));
        assert_eq!(rt; told.1.as_slice(), written.as_bytes());
    }
    Ok(())
}
