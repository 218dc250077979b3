//! What `dump` writes of a run, and what `show` says of it.

use program_runs::{FIRST_RUN, outcome};
use replay_cli::Status;
use std::alloc::{AllocError, Global};
use std::test::Fail;
use worked_runs::{OUT_AND_IN_AGAIN, SHARED_PAGE, WRITTEN_TOGETHER};

// The dump after the first run: one process, which has written to one page of the 8 frames.
fn first_dump(alloc: Global) -> Result<Vec<u8>, AllocError> {
    let mut bytes = b"VMSDUMP1".to_vec(alloc)?;
    // 8 frames, 7 free, none modified, 1 process; 4 blocks, 1 charged, none assigned.
    put(&mut bytes, &[8, 7, 0, 1, 4, 1, 0])?;
    // Frame 0 is active and modified, with page 0 of process 0; the others are free and empty.
    bytes.extend_from_slice(&[7, 1, 1, 0])?;
    put(&mut bytes, &[0, 0, 1, 1])?;
    for _ in 0..7 {
        put(&mut bytes, &[0, 0, 0, 0, 0])?;
    }
    put(&mut bytes, &[1, 2, 3, 4, 5, 6, 7])?;
    // The process is resident; 4 slots, hand 1, limit 4; slot 0 has page 0.
    put(&mut bytes, &[0, 4, 1, 4])?;
    put(&mut bytes, &[0x0100_0000, 0, 0, 0, 0, 0, 0, 0])?;
    // One valid entry, and no transfer.
    put(&mut bytes, &[1, 0, 0xa400_0000, 0])?;
    Ok(bytes)
}

// Adds numbers of four bytes, the highest first.
fn put(bytes: &mut Vec<u8>, numbers: &[u32]) -> Result<(), AllocError> {
    for number in numbers {
        bytes.extend_from_slice(&number.to_be_bytes())?;
    }
    Ok(())
}

const FIRST_SHOWN: &str = "DUMP 8 1\n\
FRAME 0 ACTIVE A/00000000 MODIFY 1 REFS 1 SHARES 1\n\
LIST FREE 7\n\
ON F1\n\
ON F2\n\
ON F3\n\
ON F4\n\
ON F5\n\
ON F6\n\
ON F7\n\
LIST MODIFIED 0\n\
PROCESS A RESIDENT COUNT 1 LIMIT 4 HAND 1\n\
SLOT 0 A/00000000\n\
PAGEFILE 4 CHARGED 1 ASSIGNED 0\n\
WRONG 0\n\
STATUS 0\n";

const WRONG_SHOWN: &str = "DUMP 8 1\n\
FRAME 0 ACTIVE A/00000000 MODIFY 1 REFS 2 SHARES 1\n\
LIST FREE 7\n\
ON F1\n\
ON F2\n\
ON F3\n\
ON F4\n\
ON F5\n\
ON F6\n\
ON F7\n\
LIST MODIFIED 0\n\
PROCESS A RESIDENT COUNT 1 LIMIT 4 HAND 1\n\
SLOT 0 A/00000000\n\
PAGEFILE 4 CHARGED 1 ASSIGNED 0\n\
WRONG F0 REFS 2 RECOUNT 1\n\
WRONG 1\n\
STATUS 0\n";

fn shown(alloc: Global, bytes: &[u8]) -> Result<(Status, Vec<u8>), Fail> {
    Ok(outcome(alloc, &["show"], bytes, &[], &[], &[], &[])?)
}

#[test]
fn a_run_is_dumped_and_shown(rt: HostRuntime) -> Result<(), Fail> {
    let alloc = rt.alloc();
    let (status, bytes) = outcome(alloc, &["dump"], FIRST_RUN.as_bytes(), &[], &[], &[], &[])?;
    assert_eq!(rt; status, Status(0));
    assert_eq!(rt; bytes.len(), 288);
    assert_eq!(rt; bytes.as_slice(), first_dump(alloc)?.as_slice());
    let (status, text) = shown(alloc, bytes.as_slice())?;
    assert_eq!(rt; status, Status(0));
    assert_eq!(rt; text.as_slice(), FIRST_SHOWN.as_bytes());
    let (status, text) = shown(alloc, changed(alloc, 51, 2)?.as_slice())?;
    assert_eq!(rt; status, Status(0));
    assert_eq!(rt; text.as_slice(), WRONG_SHOWN.as_bytes());
    Ok(())
}

// The first dump with another byte at one place.
fn changed(alloc: Global, place: usize, byte: u8) -> Result<Vec<u8>, AllocError> {
    let mut bytes = first_dump(alloc)?;
    if let Some(old) = bytes.get_mut(place) {
        *old = byte;
    }
    Ok(bytes)
}

#[test]
fn each_number_that_differs_is_wrong(rt: HostRuntime) -> Result<(), Fail> {
    let alloc = rt.alloc();
    // The place of a byte and its new value, and the end of the text.
    let table: [(usize, u8, &str); 4] = [
        (51, 2, "\nWRONG F0 REFS 2 RECOUNT 1\nWRONG 1\nSTATUS 0\n"),
        (55, 3, "\nWRONG F0 SHARES 3 RECOUNT 1\nWRONG 1\nSTATUS 0\n"),
        (56, 3, "\nWRONG F1 FREE 0 RECOUNT 1\nWRONG 1\nSTATUS 0\n"),
        (
            36,
            1,
            "\nWRONG F0 MODIFIED 1 RECOUNT 0\nWRONG 1\nSTATUS 0\n",
        ),
    ];
    for (place, byte, end) in table {
        let (status, text) = shown(alloc, changed(alloc, place, byte)?.as_slice())?;
        assert_eq!(rt; status, Status(0));
        assert!(rt; text.ends_with(end.as_bytes()));
    }
    Ok(())
}

#[test]
fn nothing_is_wrong_in_the_dump_of_a_run(rt: HostRuntime) -> Result<(), Fail> {
    let alloc = rt.alloc();
    for trace in [WRITTEN_TOGETHER, SHARED_PAGE, OUT_AND_IN_AGAIN] {
        let (status, bytes) = outcome(alloc, &["dump"], trace.as_bytes(), &[], &[], &[], &[])?;
        assert_eq!(rt; status, Status(0));
        let (status, text) = shown(alloc, bytes.as_slice())?;
        assert_eq!(rt; status, Status(0));
        assert!(rt; text.ends_with(b"\nWRONG 0\nSTATUS 0\n"));
    }
    Ok(())
}

// A dump that is cut, and one that goes on. The tests of dump_bytes cut it after each of its bytes.
#[test]
fn bytes_that_are_no_dump_are_bad_there(rt: HostRuntime) -> Result<(), Fail> {
    let alloc = rt.alloc();
    let whole = first_dump(alloc)?;
    for count in [0, 8, 36, 100, 224, 287] {
        let Some(front) = whole.get(..count) else {
            return Err(Fail::from("the dump is too short"));
        };
        let (status, text) = shown(alloc, front)?;
        assert_eq!(rt; status, Status(2));
        assert_eq!(rt;
            text.as_slice(),
            format!(in alloc; "DUMP {count} BAD\nSTATUS 2\n")?.as_bytes()
        );
    }
    let mut more = first_dump(alloc)?;
    more.push(0)?;
    let (status, text) = shown(alloc, more.as_slice())?;
    assert_eq!(rt; status, Status(2));
    assert_eq!(rt; text.as_slice(), b"DUMP 288 BAD\nSTATUS 2\n".as_slice());
    Ok(())
}

// Where a dump can't be made its command writes what `serial` does.
#[test]
fn a_dump_that_fails_ends_as_a_run_does(rt: HostRuntime) -> Result<(), Fail> {
    let alloc = rt.alloc();
    // The trace, failing reads and makes, and the status.
    let table: [(&str, &[u32], &[u32], u8); 4] = [
        ("VMTRACE 1\nFRAMES 7\n", &[], &[], 2),
        ("VMTRACE 1\nFRAMES 8\n", &[], &[], 2),
        (FIRST_RUN, &[1], &[], 3),
        (FIRST_RUN, &[], &[2], 6),
    ];
    for (trace, reads, makes, status) in table {
        let dumped = outcome(alloc, &["dump"], trace.as_bytes(), reads, &[], &[], makes)?;
        let run = outcome(alloc, &["serial"], trace.as_bytes(), reads, &[], &[], makes)?;
        assert_eq!(rt; dumped.0, Status(status));
        assert_eq!(rt; run.0, Status(status));
        assert_eq!(rt; dumped.1.as_slice(), run.1.as_slice());
    }
    let (status, bytes) = outcome(alloc, &["dump"], FIRST_RUN.as_bytes(), &[], &[3], &[], &[])?;
    assert_eq!(rt; status, Status(4));
    assert_eq!(rt; Some(bytes.as_slice()), first_dump(alloc)?.get(..56));
    let (status, text) = outcome(
        alloc,
        &["show"],
        first_dump(alloc)?.as_slice(),
        &[1],
        &[],
        &[],
        &[],
    )?;
    assert_eq!(rt; status, Status(3));
    assert_eq!(rt; text.as_slice(), b"STATUS 3\n".as_slice());
    Ok(())
}
