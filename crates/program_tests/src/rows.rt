use disk_trait::MemoryDepot;
use program_runs::{FIRST_RUN, FIRST_RUN_TEXT, outcome, serial_over};
use replay_cli::Status;
use std::test::Fail;

const NO_REQUESTS: &str = "VMTRACE 1\n\
FRAMES 8\n\
PAGEFILE 4\n\
PROCESS A 4 4 4 0\n\
BODY\n\
END\n";

const NO_REQUESTS_TEXT: &str = "PFN AT 0\n\
FREE 8 MODIFIED 0 BAD 0 RELEASE 0 READERROR 0 WRITING 0 READING 0 ACTIVE 0\n\
PAGEFILE 4 CHARGED 0 ASSIGNED 0\n\
PROCESS A RESIDENT COUNT 0 LIMIT 4\n\
STATUS 0\n";

const FULL: &str = "VMTRACE 1\n\
FRAMES 8\n\
PAGEFILE 1\n\
PROCESS A 4 4 4 0\n\
MAPZERO A 00000000 4 UW\n\
BODY\n\
A W1 00000000 07\n\
A R4 00000200\n\
A R4 00000200\n\
END\n";

const FULL_LINES: &str = "1 A ZERO 00000000 F0\n\
2 A DONE W1 00000000 07\n\
3 A DENIED R4 00000200 PAGEFILEFULL\n\
4 A DENIED R4 00000200 PAGEFILEFULL\n";

// The process reads three pages, and the three again.
const TWICE: &str = "VMTRACE 1\n\
FRAMES 8\n\
PAGEFILE 4\n\
PROCESS A 4 4 4 0\n\
BODY\n\
A R4 00000000\n\
A R4 00000200\n\
A R4 00000400\n\
A R4 00000000\n\
A R4 00000200\n\
A R4 00000400\n\
END\n";

const TWO_FRAMES: &str = "PAGES 6 DISTINCT 3\n\
RING 2 6\n\
LRU 1 6\n\
LRU 2 6\n\
LEAST 2 4\n\
DROP 2\n\
CUT 3\n\
STATUS 0\n";

const THREE_FRAMES: &str = "PAGES 6 DISTINCT 3\n\
RING 3 3\n\
LRU 1 6\n\
LRU 2 6\n\
LRU 3 3\n\
LEAST 3 3\n\
STATUS 0\n";

const ONE_FRAME: &str = "PAGES 0 DISTINCT 0\n\
RING 1 0\n\
LRU 1 0\n\
LEAST 1 0\n\
STATUS 0\n";

const FIVE_PAGES: &str = "VMTRACE 1\n\
FRAMES 8\n\
PAGEFILE 4\n\
PROCESS A 4 4 4 0\n\
MAPZERO A 00000000 5 UW\n\
BODY\n\
END\n";

// Ample memory and devices that don't fail: words, trace, status and text.
#[test]
fn writes_the_rows(rt: HostRuntime) -> Result<(), Fail> {
    let table: [(&[&str], &str, u8, &str); 12] = [
        (&["serial"], FIRST_RUN, 0, FIRST_RUN_TEXT),
        (&["serial"], NO_REQUESTS, 0, NO_REQUESTS_TEXT),
        (&["serial"], FIVE_PAGES, 0, NO_REQUESTS_TEXT),
        (&["serial"], "", 2, "TRACE UNFINISHED\nSTATUS 2\n"),
        (
            &["serial"],
            "\0\u{7f}no trace",
            2,
            "TRACE 1 NOTASCII\nSTATUS 2\n",
        ),
        (
            &["study", "--process", "A", "--frames", "2"],
            TWICE,
            0,
            TWO_FRAMES,
        ),
        (
            &["study", "--frames=0000000003", "--process=A"],
            TWICE,
            0,
            THREE_FRAMES,
        ),
        (
            &["study", "--process=A", "--frames", "1"],
            NO_REQUESTS,
            0,
            ONE_FRAME,
        ),
        (
            &["study", "--frames", "1", "--process", "P"],
            TWICE,
            0,
            ONE_FRAME,
        ),
        (
            &["study", "--frames=1", "--process=A"],
            FIVE_PAGES,
            0,
            ONE_FRAME,
        ),
        (
            &["study", "--frames=1", "--process=A"],
            "VMTRACE 1\nFRAMES 7\n",
            2,
            "TRACE 2 OUTOFRANGE\nSTATUS 2\n",
        ),
        (&["parallel"], FIRST_RUN, 1, "STATUS 1\n"),
    ];
    for (words, text, status, written) in table {
        let told = outcome(rt.alloc(), words, text.as_bytes(), &[], &[], &[], &[])?;
        assert_eq!(rt; told.0, Status(status));
        assert_eq!(rt; told.1.as_slice(), written.as_bytes());
    }
    Ok(())
}

// Words that are no command line.
#[test]
fn refuses_other_words(rt: HostRuntime) -> Result<(), Fail> {
    let table: [&[&str]; 16] = [
        &[],
        &["check", "x"],
        &["check", "--"],
        &["serial", "x"],
        &["serial", "--"],
        &["study"],
        &["study", "--help"],
        &["study", "--process", "A"],
        &["study", "--process", "A", "--process", "A"],
        &["study", "--process", "A", "--frames"],
        &["study", "--process", "A", "--frames="],
        &["study", "--process", "A", "--frames", "0"],
        &["study", "--process", "A", "--frames", "1025"],
        &["study", "--process", "Q", "--frames", "1"],
        &["study", "--process", "A", "--frame", "1"],
        &["study", "--", "--process", "A", "--frames", "1"],
    ];
    for words in table {
        let told = outcome(rt.alloc(), words, TWICE.as_bytes(), &[], &[], &[], &[])?;
        assert_eq!(rt; told.0, Status(1));
        assert_eq!(rt; told.1.as_slice(), b"STATUS 1\n".as_slice());
    }
    Ok(())
}

#[test]
fn denies_a_full_page_file(rt: HostRuntime) -> Result<(), Fail> {
    let told = outcome(rt.alloc(), &["serial"], FULL.as_bytes(), &[], &[], &[], &[])?;
    assert_eq!(rt; told.0, Status(0));
    assert!(rt; told.1.as_slice().starts_with(FULL_LINES.as_bytes()));
    Ok(())
}

// A second run over a depot that has taken blocks back.
#[test]
fn runs_twice_over_a_depot(rt: HostRuntime) -> Result<(), Fail> {
    let alloc = rt.alloc();
    let mut depot = MemoryDepot::new(alloc, Vec::new(alloc));
    for _ in 0..2 {
        let told = serial_over(alloc, FIRST_RUN.as_bytes(), depot)?;
        assert_eq!(rt; told.0, Status(0));
        assert_eq!(rt; told.1.as_slice(), FIRST_RUN_TEXT.as_bytes());
        depot = told.2;
    }
    Ok(())
}

// A study with a read that fails, and one whose third write fails.
#[test]
fn ends_a_study_at_a_failure(rt: HostRuntime) -> Result<(), Fail> {
    let words = ["study", "--process", "A", "--frames", "2"];
    let unread = outcome(rt.alloc(), &words, TWICE.as_bytes(), &[2], &[], &[], &[])?;
    assert_eq!(rt; unread.0, Status(3));
    assert_eq!(rt; unread.1.as_slice(), b"STATUS 3\n".as_slice());
    let failed = outcome(rt.alloc(), &words, TWICE.as_bytes(), &[], &[3], &[], &[])?;
    assert_eq!(rt; failed.0, Status(4));
    assert_eq!(rt;
        failed.1.as_slice(),
        b"PAGES 6 DISTINCT 3\nRING 2 6\n".as_slice()
    );
    Ok(())
}
