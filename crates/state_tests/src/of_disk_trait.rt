ghost use Rattle.std.specs.Prelude.{◌≡◌, ◌+◌, ◌^◌, ◌<◌, true, length, OnOk, OnErr, IsErrOf};
ghost use Rattle.vm_types.specs.Counts.{Rose};

use disk_trait::{Block, Depot, MakeFault, MemoryDepot, NeverFails};
use file_depot::FileDepot;
use std::fs;
use std::test::Fail;
use vm_types::{BlockId, Failed, Proc, SecId};

/// Writes bytes and reads them back, as any block whose bytes are known gives them.
fn write_and_read<B: Block>(block: &mut B, bytes: &[u8], buf: &mut [u8]) -> Result<(), Failed>
    requires size { length bytes.now ≡ 512 }
    requires buf_size { length buf.old ≡ 512 }
    requires few_calls { (B.seen block.old).reads + (B.seen block.old).writes + 1 < 2 ^ 48 }
    ensures same { OnOk result (B.tells.content ≡ true → buf.new ≡ bytes.now) }
    ensures failed { OnErr result ((B.seen block.old).faults < (B.seen block.new).faults) }
    ensures calls { (B.seen block.new).reads + (B.seen block.new).writes < (B.seen block.old).reads + (B.seen block.old).writes + 3 }
{
    block.write(bytes)?;
    block.read(buf)
}

/// Makes a block and gives it back at once.
fn make_and_retire<D: Depot>(depot: &mut D, id: BlockId, bytes: &[u8]) -> Result<(), MakeFault>
    requires { length bytes.now ≡ 512 }
    ensures { IsErrOf result MakeFault.Failed → Rose (D.seen depot.old).failures (D.seen depot.new).failures }
{
    let block = depot.make(id, bytes, &[])?;
    depot.retire(id, block)?;
    Ok(())
}

#[test]
fn blocks_fail_as_planned(rt: HostRuntime) -> Result<(), Fail> {
    let mut depot = MemoryDepot::new(rt.alloc(), vec![in rt.alloc(); 1]?);
    for expected in [Err(MakeFault::Failed), Ok(())] {
        let made = make_and_retire(&mut depot, BlockId::PageFile(3), &[5; 512]);
        assert_eq!(rt; made, expected);
    }
    let found = depot.retired(BlockId::PageFile(3)).ok_or("it was retired")?;
    assert_eq!(rt; found.bytes(), [5; 512].as_slice());
    assert!(rt; depot.retired(BlockId::Swap(Proc(0), 3)).is_none());
    let mut block = depot.make(BlockId::PageFile(0), &[0; 512], &[2])?;
    let mut buf = [7; 512];
    block.read(&mut buf)?;
    assert_eq!(rt; buf, [0; 512]);
    assert_eq!(rt; block.write(&[1; 512]), Err(Failed));
    assert_eq!(rt; &block.bytes()[..256], [1; 256].as_slice());
    assert_eq!(rt; &block.bytes()[256..], [0; 256].as_slice());
    assert_eq!(rt; write_and_read(&mut block, &[3; 512], &mut buf), Ok(()));
    assert_eq!(rt; buf, [3; 512]);
    assert_eq!(rt; (block.reads(), block.writes(), block.faults()), (2, 2, 1));
    let mut other = NeverFails::new(rt.alloc()).make(BlockId::PageFile(1), &[2; 512], &[1])?;
    assert_eq!(rt; write_and_read(&mut other, &[4; 512], &mut buf), Ok(()));
    assert_eq!(rt; (buf[511], other.faults()), (4, 0));
    Ok(())
}

/// Gives back as many blocks as the greatest page file has.
#[test]
fn the_greatest_page_file_is_retired(rt: HostRuntime) -> Result<(), Fail> {
    let mut memory = MemoryDepot::new(rt.alloc(), Vec::new(rt.alloc()));
    let mut other = NeverFails::new(rt.alloc());
    for number in 0..16_384u32 {
        let (id, bytes) = (BlockId::PageFile(number), [(number & 255) as u8; 512]);
        assert_eq!(rt; make_and_retire(&mut memory, id, &bytes), Ok(()));
        assert_eq!(rt; make_and_retire(&mut other, id, &bytes), Ok(()));
    }
    for number in [0, 1, 16_383] {
        let found = memory
            .retired(BlockId::PageFile(number))
            .ok_or("it was retired")?;
        assert_eq!(rt; found.bytes(), [(number & 255) as u8; 512].as_slice());
    }
    Ok(())
}

#[test]
fn files_give_back_what_was_written(rt: HostRuntime) -> Result<(), Fail> {
    let folder = "disk_trait_test";
    let _ = fs::remove_dir_all(&rt, folder);
    let mut depot = FileDepot::new(rt.alloc(), rt.clone()?, folder)?;
    assert_eq!(rt;
        make_and_retire(&mut depot, BlockId::PageFile(7), &[1; 512]),
        Err(MakeFault::Failed)
    );
    fs::create_dir(&rt, folder)?;
    let blocks = [
        (BlockId::Section(SecId(2), 3), "disk_trait_test/s2_3"),
        (BlockId::PageFile(7), "disk_trait_test/p7"),
        (BlockId::Swap(Proc(0), 2), "disk_trait_test/x0_2"),
    ];
    for (id, path) in blocks {
        let mut block = depot.make(id, &[1; 512], &[1])?;
        assert_eq!(rt; fs::read(&rt, path)?.as_slice(), [1; 512].as_slice());
        let mut buf = [0; 512];
        assert_eq!(rt; write_and_read(&mut block, &[2; 512], &mut buf), Ok(()));
        assert_eq!(rt; buf, [2; 512]);
        assert_eq!(rt; fs::read(&rt, path)?.as_slice(), [2; 512].as_slice());
        // A write truncates nothing.
        fs::write(&rt, path, [9u8; 600].as_slice())?;
        assert_eq!(rt; block.write(&[4; 512]), Ok(()));
        let kept = fs::read(&rt, path)?;
        assert_eq!(rt; kept.len(), 600);
        assert!(rt; kept.starts_with(&[4; 512]) && kept.ends_with(&[9; 88]));
        fs::remove_file(&rt, path)?;
        assert_eq!(rt;
            (block.read(&mut buf), block.write(&[3; 512])),
            (Err(Failed), Err(Failed))
        );
        assert_eq!(rt; block.faults(), 2);
        depot.retire(id, block)?;
    }
    fs::remove_dir_all(&rt, folder)?;
    Ok(())
}
