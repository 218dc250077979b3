//! States of the greatest configurations.

use crate::schedule::play;
use seat_schedules::Went;
use std::alloc::Global;
use std::test::Fail;
use vm_types::NoMemory;

/// The most frames, page file blocks and section pages.
const GREATEST: &[u8] = b"VMTRACE 1\n\
FRAMES 4096\n\
PAGEFILE 16384\n\
SECTION BIG SHARED 16384\n";

/// The most of version 2.
const SECOND_GREATEST: &[u8] = b"VMTRACE 2\n\
FRAMES 16384\n\
PAGEFILE 16384\n\
SECTION BIG PAGED 16384\n";

/// Adds the process of this letter with the greatest working set, and with these locks.
fn add_process(text: &mut Vec<u8>, letter: u8, locks: &[u8]) -> Result<(), NoMemory> {
    text.extend_from_slice(b"PROCESS ")?;
    text.push(letter)?;
    text.extend_from_slice(b" 1024 1024 1024 ")?;
    text.extend_from_slice(locks)?;
    text.push(b'\n')?;
    Ok(())
}

/// The trace of this machine with the most processes.
fn greatest(alloc: Global, machine: &[u8], locks: &[u8]) -> Result<Vec<u8>, NoMemory> {
    let mut text = Vec::from_slice(alloc, machine)?;
    for letter in b'A'..b'Q' {
        add_process(&mut text, letter, locks)?;
    }
    text.extend_from_slice(b"BODY\nEND\n")?;
    Ok(text)
}

// A state is made, and no step.
#[test]
fn starts_with_the_greatest_configuration(rt: HostRuntime) -> Result<(), Fail> {
    let table: [(&[u8], &[u8], usize); 2] = [
        (GREATEST, b"1022", 4096),
        (SECOND_GREATEST, b"959", 16384),
    ];
    for (machine, locks, frames) in table {
        let text = greatest(rt.alloc(), machine, locks)?;
        let played = play(rt.alloc(), &text, &[])?;
        assert_eq!(rt; played.went, Went::Made);
        assert_eq!(rt; played.entries.len(), 0);
        assert_eq!(rt; played.frames.len(), frames);
        assert_eq!(rt; played.blocks.len(), 16384);
    }
    Ok(())
}
