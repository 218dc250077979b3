ghost use Rattle.std.specs.Prelude.{◌<◌, ◌^◌};

use crate::one_page::read;
use command_ends::Status;
use dump_bytes::write_dump;
use dump_lines::{recount, show};
use outside_io::MemorySink;
use std::alloc::{AllocError, Global};
use std::test::Fail;

fn push(bytes: &mut Vec<u8>, numbers: &[u32]) -> Result<(), AllocError> {
    for n in numbers {
        bytes.extend_from_slice(&n.to_be_bytes())?;
    }
    Ok(())
}

/// All frame numbers.
fn push_frames(bytes: &mut Vec<u8>) -> Result<(), AllocError> {
    for f in 0..16384 {
        push(bytes, &[f])?;
    }
    Ok(())
}

/// A process whose 1024 slots are locked and pinned, with a page each, in frames from this one on.
fn push_process(bytes: &mut Vec<u8>, first: u32) -> Result<(), AllocError>
    requires { first < 2 ^ 14 }
{
    push(bytes, &[0, 1024, 1023, u32::MAX])?;
    for vpn in 0..1024 {
        bytes.extend_from_slice(&[7, 0, 0, 0])?;
        push(bytes, &[vpn])?;
    }
    push(bytes, &[1024])?;
    for vpn in 0..1024 {
        push(bytes, &[vpn, 0xa400_0000 + first + vpn])?;
    }
    Ok(())
}

/// The longest dump. Each frame is active and has one page of a process, which is pinned, and an open
/// transfer; and it is on both page lists.
fn great(alloc: Global) -> Result<Vec<u8>, AllocError> {
    let mut bytes = b"VMSDUMP1".to_vec(alloc)?;
    push(
        &mut bytes,
        &[16384, 16384, 16384, 16, u32::MAX, u32::MAX, u32::MAX],
    )?;
    for f in 0..16384 {
        bytes.extend_from_slice(&[7, 1, 1, 0])?;
        push(&mut bytes, &[f / 1024, f % 1024, 3, 1])?;
    }
    push_frames(&mut bytes)?;
    push_frames(&mut bytes)?;
    for p in 0..16 {
        push_process(&mut bytes, 1024 * p)?;
    }
    push(&mut bytes, &[16384])?;
    push_frames(&mut bytes)?;
    Ok(bytes)
}

#[test]
fn the_greatest_dump_is_read_and_written_back(rt: HostRuntime) -> Result<(), Fail> {
    let alloc = rt.alloc();
    let bytes = great(alloc)?;
    assert_eq!(rt; bytes.len(), 786_792);
    let dump = read(alloc, great(alloc)?, &[])??;
    let mut sink = MemorySink::new(alloc, 786_792, Vec::new(alloc), Vec::new(alloc))?;
    assert_eq!(rt; write_dump(&dump, &mut sink), Ok(()));
    assert!(rt; sink.taken() == bytes.as_slice());
    Ok(())
}

#[test]
fn the_greatest_dump_is_shown(rt: HostRuntime) -> Result<(), Fail> {
    let alloc = rt.alloc();
    let dump = read(alloc, great(alloc)?, &[])??;
    let counts = recount(alloc, &dump)?;
    let mut sink = MemorySink::new(alloc, 4_000_000, Vec::new(alloc), Vec::new(alloc))?;
    assert_eq!(rt; show(&dump, counts.as_slice(), &mut sink), Status(0));
    let text = sink.taken();
    let first = b"DUMP 16384 16\nFRAME 0 ACTIVE A/00000000 MODIFY 1 REFS 3 SHARES 1\n";
    assert_eq!(rt; text.get(..first.len()), Some(first.as_slice()));
    let last = b"WRONG F16383 MODIFIED 0 RECOUNT 1\nWRONG 32768\nSTATUS 0\n";
    assert!(rt; text.ends_with(last));
    Ok(())
}
