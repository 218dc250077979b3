ghost use Rattle.std.specs.Prelude.{◌+◌, ◌<◌, ◌^◌, IfOk};
ghost use Rattle.vm_types.specs.Configuration.{IsWellFormed};

use arrayvec::ArrayVec;
use disk_trait::{Block, MakeFault, MemoryDepot};
use outside_io::MemorySource;
use run_blocks::{make_blocks, retire_blocks};
use std::alloc::Global;
use std::test::Fail;
use trace_reader::read_trace;
use vm_types::{BlockId, Config, Proc, SecId};

/// A section of two pages, a page file of one block, and processes with two and three swap blocks. The
/// second call of the second section block fails.
const SMALL: &[u8] = b"VMTRACE 1\nFRAMES 8\nPAGEFILE 1\nSECTION LIB SHARED 2\nDATA LIB 512 0203\n\
PROCESS A 2 2 2 0\nPROCESS B 2 2 3 0\nFAIL S:LIB/1 2\nBODY\nEND\n";

/// The configuration of the tests.
fn small(alloc: Global) -> Result<Config, Fail>
    ensures { IfOk result IsWellFormed }
{
    let mut source = MemorySource::new(SMALL.to_vec(alloc)?, Vec::new(alloc));
    match read_trace(alloc, &mut source, &mut ArrayVec::new()) {
        Ok(config) => Ok(config),
        Err(_) => Err(Fail::from("a trace")),
    }
}

/// Whether the second of two reads fails.
fn fails_at_second<B: Block>(block: &mut B) -> bool
    requires { (B.seen block.old).reads + (B.seen block.old).writes < 2 ^ 47 }
{
    let mut buf = [0; 512];
    block.read(&mut buf).is_ok() && block.read(&mut buf).is_err()
}

#[test]
fn blocks_are_made_in_their_order(rt: HostRuntime) -> Result<(), Fail> {
    let alloc = rt.alloc();
    let config = small(alloc)?;
    let mut depot = MemoryDepot::new(alloc, Vec::new(alloc));
    let blocks = make_blocks(alloc, &config, &mut depot)?;
    let expected = [
        (BlockId::Section(SecId(0), 0), 0),
        (BlockId::Section(SecId(0), 1), 2),
        (BlockId::PageFile(0), 0),
        (BlockId::Swap(Proc(0), 0), 0),
        (BlockId::Swap(Proc(0), 1), 0),
        (BlockId::Swap(Proc(1), 0), 0),
        (BlockId::Swap(Proc(1), 1), 0),
        (BlockId::Swap(Proc(1), 2), 0),
    ];
    assert_eq!(rt; blocks.len(), expected.len());
    for (pair, (id, first)) in blocks.iter().zip(expected) {
        assert_eq!(rt; (pair.0, pair.1.bytes()[0]), (id, first));
    }
    retire_blocks(blocks, &mut depot)?;
    for (id, first) in expected {
        let block = depot.retired(id).ok_or("it was retired")?;
        assert_eq!(rt; block.bytes()[0], first);
    }
    assert!(rt; depot.retired(BlockId::PageFile(1)).is_none());
    Ok(())
}

#[test]
fn a_block_fails_as_planned(rt: HostRuntime) -> Result<(), Fail> {
    let alloc = rt.alloc();
    let config = small(alloc)?;
    let mut depot = MemoryDepot::new(alloc, Vec::new(alloc));
    for (id, mut block) in make_blocks(alloc, &config, &mut depot)? {
        let planned = id == BlockId::Section(SecId(0), 1);
        assert_eq!(rt; fails_at_second(&mut block), planned);
    }
    Ok(())
}

#[test]
fn the_first_make_fails(rt: HostRuntime) -> Result<(), Fail> {
    let alloc = rt.alloc();
    let config = small(alloc)?;
    let mut depot = MemoryDepot::new(alloc, vec![in alloc; 1]?);
    let failed = make_blocks(alloc, &config, &mut depot).err();
    assert_eq!(rt; failed, Some(MakeFault::Failed));
    assert!(rt; make_blocks(alloc, &config, &mut depot).is_ok());
    assert!(rt; depot.retired(BlockId::PageFile(0)).is_none());
    Ok(())
}
