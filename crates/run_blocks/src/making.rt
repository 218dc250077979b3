ghost use Rattle.std.specs.Prelude.{◌≡◌, ◌+◌, ◌≤◌, ◌<◌, ◌++◌, ◌∷◌, [], Some, All, IfOk, IsErrOf, OnOk, length, map, replicate, slice_get};
ghost use Rattle.std.specs.List.{range_with_len};
ghost use Rattle.vm_types.specs.declared.limits.TheConstants.{PAGE_BYTES};
ghost use Rattle.vm_types.specs.Configuration.{IsWellFormed};
ghost use Rattle.vm_types.specs.SectionBlocks.{section_block_count};
ghost use Rattle.vm_types.specs.Counts.{Rose};
ghost use Rattle.vm_types.specs.declared.config.Section.{Section};
ghost use Rattle.vm_types.specs.declared.names.BlockId.{BlockId};
ghost use Rattle.frame_store.specs.Blocks.{blocks_of, file_blocks, section_block, section_blocks, swap_block, swap_blocks};
ghost use Rattle.vm_state.specs.Made.{IsMade};
ghost use Rattle.run_blocks.specs.Adds.{Adds, AreFirst};
ghost use Rattle.run_blocks.specs.Causes.{HasCause};

use crate::planned::planned_calls;
use disk_trait::{Block, Depot, MakeFault};
use frame_store::{block_count, section_block_count};
use std::alloc::Global;
use vm_types::{BlockId, Config, PAGE_BYTES, Proc, SecId, Section};

/// Makes a block with these bytes, and adds it to those that were made.
fn make_one<D: Depot>(
    config: &Config,
    depot: &mut D,
    id: BlockId,
    bytes: &[u8],
    blocks: &mut Vec<(BlockId, D::Block)>,
) -> Result<(), MakeFault>
    requires size { length bytes.now ≡ PAGE_BYTES }
    requires first { AreFirst config.now id bytes.now }
    ensures adds { OnOk result (Adds D.Block.seen D.Block.tells config.now (id ∷ []) blocks.old.items blocks.new.items) }
    ensures retired { (D.seen depot.new).retired ≡ (D.seen depot.old).retired }
    ensures cause { HasCause (D.seen depot.old).failures (D.seen depot.new).failures result }
{
    let block = depot.make(id, bytes, planned_calls(config, id))?;
    match blocks.push((id, block)) {
        Ok(()) => Ok(()),
        Err(_) => Err(MakeFault::NoMemory),
    }
}

/// Makes a block of zeros that isn't a section's, and adds it to those that were made.
fn make_one_of_zeros<D: Depot>(
    config: &Config,
    depot: &mut D,
    id: BlockId,
    blocks: &mut Vec<(BlockId, D::Block)>,
) -> Result<(), MakeFault>
    requires { AreFirst config.now id (replicate PAGE_BYTES 0) }
    ensures adds { OnOk result (Adds D.Block.seen D.Block.tells config.now (id ∷ []) blocks.old.items blocks.new.items) }
    ensures retired { (D.seen depot.new).retired ≡ (D.seen depot.old).retired }
    ensures cause { HasCause (D.seen depot.old).failures (D.seen depot.new).failures result }
{
    let block = depot.make_zeros(id, planned_calls(config, id))?;
    match blocks.push((id, block)) {
        Ok(()) => Ok(()),
        Err(_) => Err(MakeFault::NoMemory),
    }
}

/// Makes the blocks of a section of the configuration: one for each page, and none in the page file.
fn make_section<D: Depot>(
    config: &Config,
    depot: &mut D,
    s: SecId,
    section: &Section,
    blocks: &mut Vec<(BlockId, D::Block)>,
) -> Result<(), MakeFault>
    requires formed { IsWellFormed config.now }
    requires there { Some section.now ≡ slice_get config.now.sections s.0 }
    ensures adds { OnOk result (Adds D.Block.seen D.Block.tells
        config.now (map (section_block s.0) (range_with_len 0 (section_block_count section.now))) blocks.old.items blocks.new.items) }
    ensures retired { (D.seen depot.new).retired ≡ (D.seen depot.old).retired }
    ensures cause { HasCause (D.seen depot.old).failures (D.seen depot.new).failures result }
{
    let bytes = section.bytes.items();
    for i in 0..section_block_count(section) as u32 {
        let from = PAGE_BYTES as usize * i as usize;
        let id = BlockId::Section(s, i);
        make_one(
            config,
            depot,
            id,
            &bytes[from..from + PAGE_BYTES as usize],
            blocks,
        )?;
    }
    Ok(())
}

/// Makes the blocks of all sections of the configuration.
fn make_sections<D: Depot>(
    config: &Config,
    depot: &mut D,
    blocks: &mut Vec<(BlockId, D::Block)>,
) -> Result<(), MakeFault>
    requires { IsWellFormed config.now }
    ensures adds { OnOk result (Adds D.Block.seen D.Block.tells config.now (section_blocks config.now.sections) blocks.old.items blocks.new.items) }
    ensures retired { (D.seen depot.new).retired ≡ (D.seen depot.old).retired }
    ensures cause { HasCause (D.seen depot.old).failures (D.seen depot.new).failures result }
{
    for (s, section) in config.sections.items().iter().enumerate() {
        make_section(config, depot, SecId(s as u32), section, blocks)?;
    }
    Ok(())
}

/// Makes the blocks of the page file.
fn make_file<D: Depot>(
    config: &Config,
    depot: &mut D,
    blocks: &mut Vec<(BlockId, D::Block)>,
) -> Result<(), MakeFault>
    ensures adds { OnOk result (Adds D.Block.seen D.Block.tells config.now (file_blocks config.now.pagefile) blocks.old.items blocks.new.items) }
    ensures retired { (D.seen depot.new).retired ≡ (D.seen depot.old).retired }
    ensures cause { HasCause (D.seen depot.old).failures (D.seen depot.new).failures result }
{
    for n in 0..config.pagefile {
        make_one_of_zeros(config, depot, BlockId::PageFile(n), blocks)?;
    }
    Ok(())
}

/// Makes so many swap blocks of a process.
fn make_swap<D: Depot>(
    config: &Config,
    depot: &mut D,
    p: Proc,
    slots: u32,
    blocks: &mut Vec<(BlockId, D::Block)>,
) -> Result<(), MakeFault>
    ensures adds { OnOk result (Adds D.Block.seen D.Block.tells
        config.now (map (swap_block p.0) (range_with_len 0 slots)) blocks.old.items blocks.new.items) }
    ensures retired { (D.seen depot.new).retired ≡ (D.seen depot.old).retired }
    ensures cause { HasCause (D.seen depot.old).failures (D.seen depot.new).failures result }
{
    for n in 0..slots {
        make_one_of_zeros(config, depot, BlockId::Swap(p, n), blocks)?;
    }
    Ok(())
}

/// Makes the swap blocks of all processes of the configuration.
fn make_swaps<D: Depot>(
    config: &Config,
    depot: &mut D,
    blocks: &mut Vec<(BlockId, D::Block)>,
) -> Result<(), MakeFault>
    requires { IsWellFormed config.now }
    ensures adds { OnOk result (Adds D.Block.seen D.Block.tells config.now (swap_blocks config.now.procs) blocks.old.items blocks.new.items) }
    ensures retired { (D.seen depot.new).retired ≡ (D.seen depot.old).retired }
    ensures cause { HasCause (D.seen depot.old).failures (D.seen depot.new).failures result }
{
    for (p, spec) in config.procs.items().iter().enumerate() {
        make_swap(config, depot, Proc(p as u32), spec.extent, blocks)?;
    }
    Ok(())
}

/// Makes each block of a configuration in its order: section blocks by section and page with the
/// section's bytes, then page file blocks, and swap blocks by process and slot, with zeros. A block is to
/// fail at the calls that the configuration names for it.
///
/// # Errors
/// `NoMemory` if out of memory, `Failed` only if the depot's count of failures rose. The blocks that
/// were made are then dropped.
pub fn make_blocks<D: Depot>(
    alloc: Global,
    config: &Config,
    depot: &mut D,
) -> Result<Vec<(BlockId, D::Block)>, MakeFault>
    requires { IsWellFormed config.now }
    ensures names { IfOk result (λ v. map (λ (p : BlockId × D.Block). p.0) v.items ≡ blocks_of config.now) }
    ensures made { IfOk result (λ v. All (λ (p : BlockId × D.Block). IsMade D.Block.tells config.now p.0 (D.Block.seen p.1)) v.items) }
    ensures retired { (D.seen depot.new).retired ≡ (D.seen depot.old).retired }
    ensures failed { IsErrOf result MakeFault.Failed → Rose (D.seen depot.old).failures (D.seen depot.new).failures }
    ensures later { (D.seen depot.old).failures ≤ (D.seen depot.new).failures }
{
    let mut blocks = Vec::with_capacity(alloc, block_count(alloc, config)?)?;
    make_sections(config, depot, &mut blocks)?;
    make_file(config, depot, &mut blocks)?;
    make_swaps(config, depot, &mut blocks)?;
    Ok(blocks)
}
