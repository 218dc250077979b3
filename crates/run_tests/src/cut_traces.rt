//! A trace that is cut.

use crate::shared_run::{SHARED_RUN, SHARED_RUN_TEXT};
use program_runs::serial;
use replay_cli::Status;
use std::alloc::Global;
use std::process::Abort;
use std::test::Fail;
use vm_types::NoMemory;

// The trace is unfinished; or the line of this number, which was begun, is at fault.
fn ends_early(
    rt: &impl Abort,
    alloc: Global,
    cut: &[u8],
    number: u32,
    begun: bool,
) -> Result<(), NoMemory> {
    let (status, text) = serial(alloc, cut)?;
    assert_eq!(rt; status, Status(2));
    if text.as_slice() != b"TRACE UNFINISHED\nSTATUS 2\n".as_slice() {
        let front = format!(in alloc; "TRACE {number} ")?;
        assert!(rt; begun && text.starts_with(front.as_bytes()));
        assert!(rt; text.ends_with(b"\nSTATUS 2\n"));
    }
    Ok(())
}

// Cut after each byte before its last line is complete; and whole.
#[test]
fn cut_after_each_byte(rt: HostRuntime) -> Result<(), Fail> {
    let alloc = rt.alloc();
    let mut cut = Vec::new(alloc);
    let mut number = 1u32;
    let mut begun = false;
    for byte in SHARED_RUN.as_bytes() {
        ends_early(&rt, alloc, &cut, number, begun)?;
        cut.push(*byte)?;
        begun = *byte != b'\n';
        if !begun {
            number = number.saturating_add(1);
        }
    }
    let (status, text) = serial(alloc, &cut)?;
    assert_eq!(rt; status, Status(0));
    assert_eq!(rt; text.as_slice(), SHARED_RUN_TEXT.as_bytes());
    Ok(())
}
