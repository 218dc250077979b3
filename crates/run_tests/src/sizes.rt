//! Runs of the greatest sizes.

use disk_trait::MemoryDepot;
use outside_io::{MemorySink, MemorySource};
use replay_cli::{CallEnds, Status, run_one};
use std::alloc::Global;
use std::test::Fail;
use vm_types::NoMemory;

const DIGITS: [u8; 16] = *b"0123456789ABCDEF";

// A machine whose frames the working set fills but for two, with the greatest page file.
const BUSY: &[u8] = b"VMTRACE 1\n\
FRAMES 64\n\
PAGEFILE 16384\n\
PROCESS A 62 62 62 0\n\
MAPZERO A 00000000 62 UW\n\
BODY\n";

// Where the entries of that run end: the last of 100,000 references is to page 55.
const BUSY_LAST: &[u8] = b"\n100062 A DONE R1 00006E00 00\nPFN AT 100062\n";

const BUSY_END: &[u8] = b"\nPAGEFILE 16384 CHARGED 62 ASSIGNED 0\n\
PROCESS A RESIDENT COUNT 62 LIMIT 62\n\
STATUS 0\n";

// The most frames, page file blocks and section pages.
const GREATEST: &[u8] = b"VMTRACE 1\n\
FRAMES 4096\n\
PAGEFILE 16384\n\
SECTION BIG SHARED 16384\n";

const GREATEST_COUNTS: &[u8] = b"PFN AT 0\n\
FREE 4096 MODIFIED 0 BAD 0 RELEASE 0 READERROR 0 WRITING 0 READING 0 ACTIVE 0\n";

// The most of version 2.
const SECOND_GREATEST: &[u8] = b"VMTRACE 2\n\
FRAMES 16384\n\
PAGEFILE 16384\n\
SECTION BIG PAGED 16384\n";

const SECOND_COUNTS: &[u8] = b"PFN AT 0\n\
FREE 16384 MODIFIED 0 BAD 0 RELEASE 0 READERROR 0 WRITING 0 READING 0 ACTIVE 0\n";

// What follows the counts of the states, in both versions.
const GREATEST_REST: &[u8] = b"PAGEFILE 16384 CHARGED 0 ASSIGNED 0\n\
PROCESS A RESIDENT COUNT 0 LIMIT 1024\n\
PROCESS B RESIDENT COUNT 0 LIMIT 1024\n\
PROCESS C RESIDENT COUNT 0 LIMIT 1024\n\
PROCESS D RESIDENT COUNT 0 LIMIT 1024\n\
PROCESS E RESIDENT COUNT 0 LIMIT 1024\n\
PROCESS F RESIDENT COUNT 0 LIMIT 1024\n\
PROCESS G RESIDENT COUNT 0 LIMIT 1024\n\
PROCESS H RESIDENT COUNT 0 LIMIT 1024\n\
PROCESS I RESIDENT COUNT 0 LIMIT 1024\n\
PROCESS J RESIDENT COUNT 0 LIMIT 1024\n\
PROCESS K RESIDENT COUNT 0 LIMIT 1024\n\
PROCESS L RESIDENT COUNT 0 LIMIT 1024\n\
PROCESS M RESIDENT COUNT 0 LIMIT 1024\n\
PROCESS N RESIDENT COUNT 0 LIMIT 1024\n\
PROCESS O RESIDENT COUNT 0 LIMIT 1024\n\
PROCESS P RESIDENT COUNT 0 LIMIT 1024\n\
STATUS 0\n";

// What `serial` answers and writes for a text, at most 4,000,000 bytes.
fn serial_of(alloc: Global, text: Vec<u8>) -> Result<(Status, Vec<u8>), NoMemory> {
    let mut ends = CallEnds {
        source: MemorySource::new(text, Vec::new(alloc)),
        output: MemorySink::new(alloc, 4_000_000, Vec::new(alloc), Vec::new(alloc))?,
        depot: MemoryDepot::new(alloc, Vec::new(alloc)),
    };
    let status = run_one(alloc, &["serial"], &mut ends);
    Ok((status, Vec::from_slice(alloc, ends.output.taken())?))
}

// A read of the first byte of a page below 128.
fn add_reference(text: &mut Vec<u8>, page: usize) -> Result<(), NoMemory> {
    text.extend_from_slice(b"A R1 0000")?;
    text.push(DIGITS[page / 8 % 16])?;
    text.push(DIGITS[page % 8 * 2])?;
    text.extend_from_slice(b"00\n")?;
    Ok(())
}

// 100,000 references, round all pages.
fn busy(alloc: Global) -> Result<Vec<u8>, NoMemory> {
    let mut text = Vec::from_slice(alloc, BUSY)?;
    for n in 0..100_000 {
        add_reference(&mut text, n % 62)?;
    }
    text.extend_from_slice(b"END\n")?;
    Ok(text)
}

// The process of this letter with the greatest working set, and with these locks.
fn add_process(text: &mut Vec<u8>, letter: u8, locks: &[u8]) -> Result<(), NoMemory> {
    text.extend_from_slice(b"PROCESS ")?;
    text.push(letter)?;
    text.extend_from_slice(b" 1024 1024 1024 ")?;
    text.extend_from_slice(locks)?;
    text.push(b'\n')?;
    Ok(())
}

// It maps all pages of both regions.
fn add_maps(text: &mut Vec<u8>, letter: u8) -> Result<(), NoMemory> {
    text.extend_from_slice(b"MAPSEC ")?;
    text.push(letter)?;
    text.extend_from_slice(b" 00000000 4096 BIG 12288 UW\nMAPZERO ")?;
    text.push(letter)?;
    text.extend_from_slice(b" 7FF80000 1024 UW\n")?;
    Ok(())
}

fn greatest(alloc: Global, machine: &[u8], locks: &[u8]) -> Result<Vec<u8>, NoMemory> {
    let mut text = Vec::from_slice(alloc, machine)?;
    for letter in b'A'..b'Q' {
        add_process(&mut text, letter, locks)?;
        add_maps(&mut text, letter)?;
    }
    text.extend_from_slice(b"BODY\nEND\n")?;
    Ok(text)
}

// Whether the part stands somewhere in the text.
fn has_part(text: &[u8], part: &[u8]) -> bool {
    text.windows(part.len().max(1)).any(|found| found == part)
}

#[test]
fn one_hundred_thousand_requests(rt: HostRuntime) -> Result<(), Fail> {
    let alloc = rt.alloc();
    let (status, text) = serial_of(alloc, busy(alloc)?)?;
    assert_eq!(rt; status, Status(0));
    assert!(rt; has_part(&text, BUSY_LAST));
    assert!(rt; text.ends_with(BUSY_END));
    Ok(())
}

#[test]
fn the_greatest_configuration(rt: HostRuntime) -> Result<(), Fail> {
    let alloc = rt.alloc();
    let table: [(&[u8], &[u8], &[u8]); 2] = [
        (GREATEST, b"1022", GREATEST_COUNTS),
        (SECOND_GREATEST, b"959", SECOND_COUNTS),
    ];
    for (machine, locks, counts) in table {
        let (status, text) = serial_of(alloc, greatest(alloc, machine, locks)?)?;
        let mut wanted = Vec::from_slice(alloc, counts)?;
        wanted.extend_from_slice(GREATEST_REST)?;
        assert_eq!(rt; status, Status(0));
        assert_eq!(rt; text, wanted);
    }
    Ok(())
}
