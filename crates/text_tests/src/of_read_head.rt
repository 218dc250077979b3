use arrayvec::ArrayVec;
use outside_io::{Lines, MemorySource};
use std::alloc::Global;
use std::process::Abort;
use std::test::Fail;
use trace_reader::{Breach, Cause, TraceFault, read_head};
use vm_types::Config;

// A whole trace of one process without requests: seven lines.
const TRACE: &[u8] =
    b"VMTRACE 1\nFRAMES 8\nPAGEFILE 4\nPROCESS A 4 4 4 0\nMAPZERO A 00000000 2 UW\nBODY\nEND\n";

// What is read of the trace with these bytes behind it, and how many bytes are left.
fn head(
    alloc: Global,
    behind: &[u8],
    fails: Vec<u32>,
) -> Result<(Result<Config, TraceFault>, usize), Fail> {
    let mut text = TRACE.to_vec(alloc)?;
    text.extend_from_slice(behind)?;
    let mut source = MemorySource::new(text, fails);
    let mut lines = Lines::new(&mut source);
    let answer = read_head(alloc, &mut lines, &mut ArrayVec::new());
    let mut out = ArrayVec::new();
    let mut left = 0;
    for n in 1..10 {
        match lines.next(&mut out) {
            Ok(outside_io::Line::Text { .. }) => left = n,
            _ => break,
        }
    }
    Ok((answer, left))
}

// The fault of the trace with these bytes behind it.
fn fault(alloc: Global, behind: &[u8]) -> Result<Option<TraceFault>, Fail> {
    Ok(head(alloc, behind, Vec::new(alloc))?.0.err())
}

fn line(n: u32, word: u8, cause: Cause) -> Option<TraceFault> {
    Some(TraceFault::Line(n, Breach::at_word(word, cause)))
}

#[test]
fn a_log_stands_behind_its_line(rt: HostRuntime) -> Result<(), Fail> {
    let none = Vec::new(rt.alloc());
    let (answer, left) = head(rt.alloc(), b"\n! a remark\n LOG \r\n1 A\nPFN AT 1\n", none)?;
    let config = answer?;
    assert_eq!(rt; config.maps.items().len(), 1);
    assert_eq!(rt; left, 2);
    let none = Vec::new(rt.alloc());
    let (answer, left) = head(rt.alloc(), b"LOG", none)?;
    assert!(rt; answer.is_ok());
    assert_eq!(rt; left, 0);
    Ok(())
}

#[test]
fn another_line_is_at_fault(rt: HostRuntime) -> Result<(), Fail> {
    assert_eq!(rt;
        fault(rt.alloc(), b"LOG IT\n")?,
        line(8, 2, Cause::Misplaced)
    );
    assert_eq!(rt;
        fault(rt.alloc(), b"\nLOGS\n")?,
        line(9, 1, Cause::UnknownWord)
    );
    assert_eq!(rt;
        fault(rt.alloc(), b"END\nLOG\n")?,
        line(8, 1, Cause::Misplaced)
    );
    assert_eq!(rt;
        fault(rt.alloc(), b"A R1 0\n")?,
        line(8, 1, Cause::Misplaced)
    );
    assert_eq!(rt; fault(rt.alloc(), b"\x01\n")?, line(8, 0, Cause::NotAscii));
    assert_eq!(rt;
        fault(rt.alloc(), &[b' '; 300])?,
        line(8, 0, Cause::LineTooLong)
    );
    assert_eq!(rt;
        fault(rt.alloc(), b"\n! LOG\n")?,
        Some(TraceFault::Unfinished)
    );
    Ok(())
}

#[test]
fn a_failed_read_is_told(rt: HostRuntime) -> Result<(), Fail> {
    let fails = vec![in rt.alloc(); 1]?;
    let (answer, _left) = head(rt.alloc(), b"LOG\n", fails)?;
    assert_eq!(rt; answer.err(), Some(TraceFault::ReadFault));
    Ok(())
}
