//! Four processes that add to one shared longword.

use crate::replays::replay;
use replay_cli::Status;
use std::alloc::Global;
use std::test::*;
use vm_types::{BlockId, SecId};

const HEAD: &[u8] = b"VMTRACE 1\nFRAMES 64\nPAGEFILE 4\nSECTION CNT SHARED 1\n\
PROCESS A 4 4 4 0\nPROCESS B 4 4 4 0\nPROCESS C 4 4 4 0\nPROCESS D 4 4 4 0\n\
MAPSEC A 00000000 1 CNT 0 UW\nMAPSEC B 00000000 1 CNT 0 UW\n\
MAPSEC C 00000000 1 CNT 0 UW\nMAPSEC D 00000000 1 CNT 0 UW\nBODY\n";

/// Each process adds one to the first longword of the section.
const ADDS: &[u8] =
    b"A A4 00000000 00000001\nB A4 00000000 00000001\nC A4 00000000 00000001\nD A4 00000000 00000001\n";

/// How often each process adds.
const TIMES: usize = 100;

/// What stands before the old value in the line of an add that was done, but for the number and the process.
const DONE: &[u8] = b" DONE A4 00000000 00000001 ";

fn trace(alloc: Global) -> Result<Vec<u8>, Fail> {
    let mut text = Vec::from_slice(alloc, HEAD)?;
    for _ in 0..TIMES {
        text.extend_from_slice(ADDS)?;
    }
    text.extend_from_slice(b"END\n")?;
    Ok(text)
}

/// The value of eight hexadecimal digits at the start, or more than any longword where other bytes stand there.
fn longword(text: &[u8]) -> u64 {
    let mut value = 0u64;
    for i in 0..8usize {
        let Some(digit) = text.get(i) else {
            return u64::MAX;
        };
        let n = match digit {
            b'0'..=b'9' => *digit - b'0',
            b'A'..=b'F' => *digit - b'A' + 10,
            _ => return u64::MAX,
        };
        value = (value << 4) | u64::from(n);
    }
    value
}

/// The old values of the adds that were done, in the order of the lines.
fn old_values(alloc: Global, log: &[u8]) -> Result<Vec<u64>, Fail> {
    let mut values = Vec::new(alloc);
    for i in 0..log.len() {
        if log[i..].starts_with(DONE) {
            values.push(longword(&log[i..][DONE.len()..]))?;
        }
    }
    Ok(values)
}

// Each add is done once and finds what the ones before it left, and the block has the last sum.
#[test]
fn adds_find_each_other(rt: HostRuntime) -> Result<(), Fail> {
    let alloc = rt.alloc();
    let (status, log, depot) = replay(&rt, alloc, &trace(alloc)?)?;
    assert_eq!(rt; status, Status(0));
    let values = old_values(alloc, &log)?;
    assert_eq!(rt; values.len(), 4 * TIMES);
    for (i, value) in values.iter().enumerate() {
        assert_eq!(rt; *value, i as u64);
    }
    let Some(block) = depot.retired(BlockId::Section(SecId(0), 0)) else {
        return Err(Fail::from("the section's block was given back"));
    };
    assert_eq!(rt; &block.bytes()[..4], [0x90, 1, 0, 0].as_slice());
    Ok(())
}
