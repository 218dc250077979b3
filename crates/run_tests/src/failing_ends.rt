//! Sources, sinks and depots that fail.

use crate::shared_run::{SHARED_RUN, SHARED_RUN_TEXT};
use program_runs::{FIRST_RUN, FIRST_RUN_TEXT, outcome};
use replay_cli::Status;
use std::alloc::Global;
use std::process::Abort;
use std::test::Fail;
use vm_types::NoMemory;

// A machine, and a process with one page.
const HEAD: &[u8] = b"VMTRACE 1\nFRAMES 8\nPAGEFILE 4\nPROCESS A 4 4 4 0\n\
MAPZERO A 00000000 1 UW\nBODY\n";

// A text whose second line is at fault.
const NO_TRACE: &str = "VMTRACE 1\nFRAMES 7\n";

const NO_TRACE_TEXT: &str = "TRACE 2 OUTOFRANGE\nSTATUS 2\n";

// What fails first decides: the words, then the bytes in their order, then the blocks. A failed
// write takes the place of each. Words, trace, the reads, the writes and the makes that fail,
// status and text.
#[test]
fn ends_with_the_first_failure(rt: HostRuntime) -> Result<(), Fail> {
    let table: [(&[&str], &str, &[u32], &[u32], &[u32], u8, &str); 11] = [
        (&["serial"], FIRST_RUN, &[1], &[], &[], 3, "STATUS 3\n"),
        (&["serial"], FIRST_RUN, &[2], &[], &[], 3, "STATUS 3\n"),
        (&["serial"], FIRST_RUN, &[], &[1], &[], 4, ""),
        (&["serial"], FIRST_RUN, &[], &[], &[1], 6, "STATUS 6\n"),
        (&["serial"], FIRST_RUN, &[1], &[], &[1], 3, "STATUS 3\n"),
        (&["serial"], FIRST_RUN, &[1], &[1], &[1], 4, ""),
        (&["serial"], FIRST_RUN, &[], &[1], &[1], 4, ""),
        (&["serial"], NO_TRACE, &[], &[], &[1], 2, NO_TRACE_TEXT),
        (
            &["serial"],
            NO_TRACE,
            &[],
            &[2],
            &[1],
            4,
            "TRACE 2 OUTOFRANGE\n",
        ),
        (
            &["serial", "x"],
            FIRST_RUN,
            &[1],
            &[],
            &[1],
            1,
            "STATUS 1\n",
        ),
        (&["serial", "x"], FIRST_RUN, &[1], &[1], &[1], 4, ""),
    ];
    for (words, trace, reads, writes, makes, status, text) in table {
        let told = outcome(
            rt.alloc(),
            words,
            trace.as_bytes(),
            reads,
            writes,
            &[],
            makes,
        )?;
        assert_eq!(rt; told.0, Status(status));
        assert_eq!(rt; told.1.as_slice(), text.as_bytes());
    }
    Ok(())
}

// Each make of a block that the run has fails in turn; the call after the last isn't come to.
#[test]
fn each_make_fails_in_turn(rt: HostRuntime) -> Result<(), Fail> {
    let words = ["serial"];
    let trace = FIRST_RUN.as_bytes();
    for number in 1..9u32 {
        let told = outcome(rt.alloc(), &words, trace, &[], &[], &[], &[number])?;
        assert_eq!(rt; told.0, Status(6));
        assert_eq!(rt; told.1.as_slice(), b"STATUS 6\n".as_slice());
    }
    let told = outcome(rt.alloc(), &words, trace, &[], &[], &[], &[9])?;
    assert_eq!(rt; told.0, Status(0));
    assert_eq!(rt; told.1.as_slice(), FIRST_RUN_TEXT.as_bytes());
    Ok(())
}

// Each read fails in turn: that of the bytes, and that of the end. The call after the last isn't come to.
#[test]
fn each_read_fails_in_turn(rt: HostRuntime) -> Result<(), Fail> {
    let words = ["serial"];
    let trace = FIRST_RUN.as_bytes();
    for number in 1..3u32 {
        let told = outcome(rt.alloc(), &words, trace, &[number], &[], &[], &[])?;
        assert_eq!(rt; told.0, Status(3));
        assert_eq!(rt; told.1.as_slice(), b"STATUS 3\n".as_slice());
    }
    let told = outcome(rt.alloc(), &words, trace, &[3], &[], &[], &[])?;
    assert_eq!(rt; told.0, Status(0));
    assert_eq!(rt; told.1.as_slice(), FIRST_RUN_TEXT.as_bytes());
    Ok(())
}

// A write that fails, or takes nothing: so many bytes of the whole text come before it.
fn is_cut(
    rt: &impl Abort,
    alloc: Global,
    trace: &[u8],
    whole: &[u8],
    number: u32,
    length: usize,
) -> Result<(), NoMemory> {
    let words = ["serial"];
    let failed = outcome(alloc, &words, trace, &[], &[number], &[], &[])?;
    assert_eq!(rt; failed.0, Status(4));
    assert_eq!(rt; failed.1.len(), length);
    assert!(rt; whole.starts_with(failed.1.as_slice()));
    let stalled = outcome(alloc, &words, trace, &[], &[], &[number], &[])?;
    assert_eq!(rt; stalled.0, Status(4));
    assert_eq!(rt; stalled.1.as_slice(), failed.1.as_slice());
    Ok(())
}

// Each write fails in turn, or takes nothing, behind so many bytes. The call after the last isn't come to.
fn is_cut_in_turn(
    rt: &impl Abort,
    alloc: Global,
    trace: &[u8],
    whole: &[u8],
    lengths: &[usize],
) -> Result<(), NoMemory> {
    let words = ["serial"];
    let mut number = 1u32;
    for length in lengths {
        is_cut(rt, alloc, trace, whole, number, *length)?;
        number = number.saturating_add(1);
    }
    let ended = outcome(alloc, &words, trace, &[], &[number], &[], &[])?;
    assert_eq!(rt; ended.0, Status(0));
    assert_eq!(rt; ended.1.as_slice(), whole);
    Ok(())
}

// The first write has all entry lines up to the report, each other one a line of the report, the
// status, or the rundown's entry lines.
#[test]
fn each_write_fails_in_turn(rt: HostRuntime) -> Result<(), Fail> {
    let alloc = rt.alloc();
    let trace = FIRST_RUN.as_bytes();
    let whole = FIRST_RUN_TEXT.as_bytes();
    is_cut_in_turn(&rt, alloc, trace, whole, &[0, 113, 122, 197, 248, 280, 315])?;
    let trace = SHARED_RUN.as_bytes();
    let whole = SHARED_RUN_TEXT.as_bytes();
    let lengths: [usize; 11] = [0, 323, 333, 408, 454, 505, 556, 588, 623, 658, 743];
    is_cut_in_turn(&rt, alloc, trace, whole, &lengths)?;
    Ok(())
}

// 200 references, whose entry lines go out in more than one write.
fn many_lines(alloc: Global) -> Result<Vec<u8>, NoMemory> {
    let mut trace = Vec::from_slice(alloc, HEAD)?;
    for _ in 0..200 {
        trace.extend_from_slice(b"A R1 00000000\n")?;
    }
    trace.extend_from_slice(b"END\n")?;
    Ok(trace)
}

// Where entry lines are cut whole lines stand, more with each call.
#[test]
fn many_lines_are_cut_between_two(rt: HostRuntime) -> Result<(), Fail> {
    let alloc = rt.alloc();
    let trace = many_lines(alloc)?;
    let words = ["serial"];
    let told = outcome(alloc, &words, &trace, &[], &[], &[], &[])?;
    assert_eq!(rt; told.0, Status(0));
    let mut before = 0;
    for number in 2..9u32 {
        let failed = outcome(alloc, &words, &trace, &[], &[number], &[], &[])?;
        assert_eq!(rt; failed.0, Status(4));
        assert!(rt; told.1.starts_with(failed.1.as_slice()));
        assert!(rt; failed.1.ends_with(b"\n") && before < failed.1.len());
        before = failed.1.len();
    }
    Ok(())
}
