ghost use Rattle.std.specs.Prelude.{◌≡◌, ◌+◌, ◌++◌, ◌*◌, ◌<◌, ◌≤◌, ◌^◌, All, IfOk, OnOk, IsSome, map, length, replicate, sum_by};
ghost use Rattle.std.specs.List.{range_with_len};
ghost use Rattle.vm_types.specs.Configuration.{IsWellFormed, section_pages};
ghost use Rattle.vm_types.specs.declared.names.BlockId.{BlockId};
ghost use Rattle.disk_trait.specs.MemoryBlock.{reads_of, writes_of};
ghost use Rattle.disk_trait.specs.declared.memory_block.MemoryBlock.{MemoryBlock};
ghost use Rattle.frame_store.specs.Blocks.{blocks_of, held_at, number_in, section_blocks, swap_blocks};
ghost use Rattle.state_tests.specs.TestStore.{IsReady, great_section, in_row};

use disk_trait::{Depot, MemoryBlock, MemoryDepot};
use frame_store::{Carried, Store, section_block_count};
use std::alloc::Global;
use std::test::Fail;
use vm_types::{
    BlockId, Body, Config, Listed, Page, Params, Pfn, Proc, ProcSpec, Seat, SecId, Section,
    SectionKind, Version,
};

const PARAMS: Params = Params {
    pfc: 1,
    hilimit: 0,
    lolimit: 0,
    waitlimit: 1,
    wrtcluster: 1,
    freelim: 0,
    freegoal: 0,
    awstime: 0,
    pfrath: 0,
    pfratl: 0,
    wsinc: 0,
    wsdec: 0,
    awsmin: 2,
    borrowlim: 0,
};

const SPEC: ProcSpec = ProcSpec {
    limit: 1024,
    quota: 1024,
    extent: 1024,
    locks: 0,
};

const PAGE: Page = Page::Shared(SecId(1), 2);

/// So many zeros.
fn zeros(alloc: Global, n: usize) -> Result<Vec<u8>, Fail>
    ensures { IfOk result (λ v. v.items ≡ replicate n 0) }
{
    Ok(vec![in alloc; 0; n]?)
}

/// A section of 256 pages; its name says its number, which is below 64.
fn section(alloc: Global, number: u8) -> Result<Section, Fail>
    requires { number < 64 }
    ensures { IfOk result (λ s. s ≡ great_section number) }
{
    let name = [b'A' + number / 8, b'A' + number % 8];
    Ok(Section {
        name: Listed::of(Vec::from_slice(alloc, &name)?),
        kind: SectionKind::Shared,
        bytes: Listed::of(zeros(alloc, 131_072)?),
    })
}

/// As many sections as there may be, with as many pages.
fn sections(alloc: Global) -> Result<Vec<Section>, Fail>
    ensures { IfOk result (λ v. v.items ≡ map great_section (range_with_len 0 64)) }
{
    let mut sections = Vec::new(alloc);
    for number in 0..64 {
        sections.push(section(alloc, number)?)?;
    }
    Ok(sections)
}

/// The greatest machine: all blocks and frames that there may be.
fn greatest(alloc: Global) -> Result<Config, Fail>
    ensures formed { IfOk result IsWellFormed }
    ensures frames { IfOk result (λ config. config.frames ≡ 4096) }
    ensures procs { IfOk result (λ config. length config.procs ≡ 16) }
{
    Ok(Config {
        version: Version::One,
        frames: 4096,
        bad: Listed::new(alloc),
        pagefile: 16_384,
        params: PARAMS,
        sections: Listed::of(sections(alloc)?),
        procs: Listed::of(Vec::from_slice(alloc, &[SPEC; 16])?),
        maps: Listed::new(alloc),
        fails: Listed::new(alloc),
        body: Body::new(alloc),
    })
}

/// The block with this number in the row of another one.
fn in_row(row: BlockId, number: u32) -> BlockId
    ensures { result ≡ in_row row number }
{
    match row {
        BlockId::Section(s, _) => BlockId::Section(s, number),
        BlockId::PageFile(_) => BlockId::PageFile(number),
        BlockId::Swap(p, _) => BlockId::Swap(p, number),
    }
}

/// Adds the first `n` blocks of the row.
fn push_row(ids: &mut Vec<BlockId>, row: BlockId, n: u32) -> Result<(), Fail>
    ensures { OnOk result (ids.new.items ≡ ids.old.items ++ map (in_row row) (range_with_len 0 n)) }
{
    for number in 0..n {
        ids.push(in_row(row, number))?;
    }
    Ok(())
}

/// Adds the blocks of all sections.
fn push_sections(ids: &mut Vec<BlockId>, sections: &[Section]) -> Result<(), Fail>
    requires few { length sections.now ≤ 64 }
    requires pages { sum_by section_pages sections.now ≤ 16384 }
    ensures { OnOk result (ids.new.items ≡ ids.old.items ++ section_blocks sections.now) }
{
    let mut number = 0;
    for section in sections {
        let blocks = section_block_count(section) as u32;
        push_row(ids, BlockId::Section(SecId(number), 0), blocks)?;
        number += 1;
    }
    Ok(())
}

/// Adds the swap blocks of all processes.
fn push_swaps(ids: &mut Vec<BlockId>, procs: &[ProcSpec]) -> Result<(), Fail>
    requires { length procs.now ≤ 16 }
    ensures { OnOk result (ids.new.items ≡ ids.old.items ++ swap_blocks procs.now) }
{
    let mut number = 0;
    for spec in procs {
        push_row(ids, BlockId::Swap(Proc(number), 0), spec.extent)?;
        number += 1;
    }
    Ok(())
}

/// The names of all blocks.
fn all_ids(alloc: Global, config: &Config) -> Result<Vec<BlockId>, Fail>
    requires { IsWellFormed config.now }
    ensures { IfOk result (λ v. v.items ≡ blocks_of config.now) }
{
    let mut ids = Vec::new(alloc);
    push_sections(&mut ids, config.sections.items())?;
    push_row(&mut ids, BlockId::PageFile(0), config.pagefile)?;
    push_swaps(&mut ids, config.procs.items())?;
    Ok(ids)
}

/// Blocks of zeros with these names. The first call of one of them fails.
fn made(
    alloc: Global,
    ids: &[BlockId],
    failing: BlockId,
) -> Result<Vec<(BlockId, MemoryBlock)>, Fail>
    ensures ids { IfOk result (λ v. map (λ (p : BlockId × MemoryBlock). p.0) v.items ≡ ids.now) }
    ensures unused { IfOk result (λ v. All (λ (p : BlockId × MemoryBlock). reads_of p.1 + writes_of p.1 ≤ 0) v.items) }
{
    let mut depot = MemoryDepot::new(alloc, Vec::new(alloc));
    let mut blocks = Vec::new(alloc);
    for id in ids {
        let fails: &[u32] = if *id == failing { &[1] } else { &[] };
        let block = depot.make(*id, &[0; 512], fails)?;
        blocks.push((*id, block))?;
    }
    Ok(blocks)
}

/// Reads a block into a frame, whose buffer and block are out in between.
fn read_in(store: &mut Store<MemoryBlock>, calls: u64, f: Pfn, id: BlockId) -> Option<Carried>
    requires few { calls < 100 }
    requires frame { f.0 < 4096 }
    requires still { held_at store.old.flights f.0 ≡ None }
    requires home { IsSome (held_at store.old.blocks (number_in store.old.ids id)) }
    requires ready { IsReady calls store.old }
    ensures { IsReady (calls + 1) store.new }
{
    let mut lift = store.lift_in(Seat(3), PAGE, f, id, calls);
    let out = !store.home(id) && store.flight(f) == Some(calls) && lift.is_read();
    lift.carry();
    let result = lift.result();
    store.land(lift);
    if out { Some(result) } else { None }
}

/// Writes a frame to a block, which is out in between.
fn write_out(store: &mut Store<MemoryBlock>, calls: u64, f: Pfn, id: BlockId) -> Option<Carried>
    requires few { calls < 100 }
    requires frame { f.0 < 4096 }
    requires still { held_at store.old.flights f.0 ≡ None }
    requires home { IsSome (held_at store.old.blocks (number_in store.old.ids id)) }
    requires ready { IsReady calls store.old }
    ensures { IsReady (calls + 1) store.new }
{
    let mut lift = store.lift_out(Seat(3), PAGE, f, id, calls);
    let out = !store.home(id) && store.flight(f) == Some(calls) && !lift.is_read();
    // What is written is a copy.
    store.zero(f);
    lift.carry();
    let result = lift.result();
    store.land(lift);
    if out { Some(result) } else { None }
}

/// One transfer from its beginning to its end, if the block is at home and the frame has none.
fn transfer(
    store: &mut Store<MemoryBlock>,
    calls: u64,
    f: Pfn,
    id: BlockId,
    read: bool,
) -> Option<Carried>
    requires few { calls < 100 }
    requires ready { IsReady calls store.old }
    ensures { IsReady (calls + 1) store.new }
{
    if f.0 >= 4096 || !store.home(id) || store.flight(f).is_some() {
        return None;
    }
    if read {
        read_in(store, calls, f, id)
    } else {
        write_out(store, calls, f, id)
    }
}

/// Fills a frame with a byte.
fn fill(store: &mut Store<MemoryBlock>, f: Pfn, byte: u8)
    requires frame { f.0 < 4096 }
    requires ready { IsReady 0 store.old }
    ensures { IsReady 0 store.new }
{
    store.bytes_mut(f).fill(byte);
}

/// The store of the greatest machine. The first call of page file block 0 fails.
fn opened(alloc: Global) -> Result<Store<MemoryBlock>, Fail>
    ensures { IfOk result (λ store. IsReady 0 store) }
{
    let config = greatest(alloc)?;
    let ids = all_ids(alloc, &config)?;
    let blocks = made(alloc, &ids, BlockId::PageFile(0))?;
    Ok(Store::new(alloc, &config, blocks)?)
}

/// Whether a frame is full of a byte.
fn is_filled(store: &Store<MemoryBlock>, f: Pfn, byte: u8) -> bool
    requires many { length store.now.buffers ≡ 4096 }
    requires home { All IsSome store.now.buffers }
{
    f.0 < 4096 && store.bytes(f) == [byte; 512].as_slice()
}

/// Whether the block with this number has this name and is full of a byte.
fn is_block(blocks: &[(BlockId, MemoryBlock)], number: usize, id: BlockId, byte: u8) -> bool {
    match blocks.get(number) {
        Some((name, block)) => *name == id && block.bytes() == [byte; 512].as_slice(),
        None => false,
    }
}

/// A store may go to another thread.
fn is_send<T: Send>(_value: &T) {}

#[test]
fn carries_transfers(rt: HostRuntime) -> Result<(), Fail> {
    let mut store = opened(rt.alloc())?;
    is_send(&store);
    fill(&mut store, Pfn(0), 7);
    let (section, swap) = (
        BlockId::Section(SecId(63), 255),
        BlockId::Swap(Proc(15), 1023),
    );
    let failed = Carried::Bad {
        before: 0,
        after: 1,
    };
    let rows = [
        (Pfn(0), section, false, Some(Carried::Good)),
        (Pfn(4095), section, true, Some(Carried::Good)),
        (Pfn(9), BlockId::PageFile(0), true, Some(failed)),
        (Pfn(4095), swap, false, Some(Carried::Good)),
        (Pfn(0), swap, true, Some(Carried::Good)),
        (Pfn(9), BlockId::PageFile(0), true, Some(Carried::Good)),
        (Pfn(9), BlockId::PageFile(16_384), true, None),
        // No byte of this frame was written.
        (
            Pfn(11),
            BlockId::PageFile(16_383),
            false,
            Some(Carried::Good),
        ),
    ];
    let mut calls = 0;
    for (f, id, read, expected) in rows {
        assert_eq!(rt; transfer(&mut store, calls, f, id, read), expected);
        calls += 1;
    }
    for (f, byte) in [(0, 7), (9, 0), (11, 0), (4095, 0)] {
        assert!(rt; is_filled(&store, Pfn(f), byte));
    }
    let back = store.into_blocks();
    assert_eq!(rt; back.len(), 49_152);
    let numbers = [
        (16_383, section, 7),
        (16_384, BlockId::PageFile(0), 0),
        (32_767, BlockId::PageFile(16_383), 0),
        (49_151, swap, 7),
    ];
    for (number, id, byte) in numbers {
        assert!(rt; is_block(&back, number, id, byte));
    }
    Ok(())
}
