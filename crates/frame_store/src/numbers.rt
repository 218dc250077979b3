ghost use Rattle.std.specs.Prelude.{◌≡◌, ◌+◌, ◌<◌, ◌^◌, IfOk, map, sum, length};
ghost use Rattle.vm_types.specs.Configuration.{IsWellFormed, section_pages};
ghost use Rattle.vm_types.specs.SectionBlocks.{section_block_count};
ghost use Rattle.frame_store.specs.Blocks.{block_counts, blocks_of, extents, page_counts};
ghost use Rattle.frame_store.specs.Numbers.{AreNumbers, first_at, firsts, listed_by, number_by};

use std::alloc::{AllocError, Global};
use vm_types::{BlockId, Config, NoMemory, PAGE_BYTES, ProcSpec, Section, SectionKind};

/// The numbers of the first blocks of each section, of the page file, and of each process's swap space.
#[derive(Drop)]
pub(crate) struct Numbers {
    pub(crate) sections: Vec<u32>,
    pub(crate) file: u32,
    pub(crate) swaps: Vec<u32>,
}

impl Numbers {
    /// The numbers of a configuration's blocks, and how many blocks it has.
    fn counted(alloc: Global, config: &Config) -> Result<(Numbers, u32), NoMemory>
        requires { IsWellFormed config.now }
        ensures numbers { IfOk result (λ r. AreNumbers (number_by r.0.sections.items r.0.file r.0.swaps.items) (blocks_of config.now)) }
        ensures listed { IfOk result (λ r.
            listed_by r.0.sections.items r.0.file r.0.swaps.items (length (blocks_of config.now)) ≡ blocks_of config.now) }
        ensures count { IfOk result (λ r. r.1 ≡ length (blocks_of config.now)) }
    {
        let pages = block_counts(alloc, config.sections.items())?;
        let slots = extents(alloc, config.procs.items())?;
        let (sections, file) = firsts(alloc, 0, &pages)?;
        let (swaps, count) = firsts(alloc, file + config.pagefile, &slots)?;
        let numbers = Numbers {
            sections,
            file,
            swaps,
        };
        Ok((numbers, count))
    }

    /// The numbers of a configuration's blocks.
    pub(crate) fn new(alloc: Global, config: &Config) -> Result<Numbers, NoMemory>
        requires { IsWellFormed config.now }
        ensures numbers { IfOk result (λ n. AreNumbers (number_by n.sections.items n.file n.swaps.items) (blocks_of config.now)) }
        ensures listed { IfOk result (λ n.
            listed_by n.sections.items n.file n.swaps.items (length (blocks_of config.now)) ≡ blocks_of config.now) }
    {
        let (numbers, _) = Numbers::counted(alloc, config)?;
        Ok(numbers)
    }

    /// The number of a block.
    pub(crate) fn number(&self, id: BlockId) -> usize
        ensures { result ≡ number_by self.now.sections.items self.now.file self.now.swaps.items id }
    {
        match id {
            BlockId::Section(s, page) => first_at(&self.sections, s.0) as usize + page as usize,
            BlockId::PageFile(block) => self.file as usize + block as usize,
            BlockId::Swap(p, slot) => first_at(&self.swaps, p.0) as usize + slot as usize,
        }
    }
}

/// The number of a row's first block.
fn first_at(numbers: &[u32], row: u32) -> u32
    ensures { result ≡ first_at numbers.now row }
{
    numbers.get(row as usize).copied().unwrap_or(0)
}

/// How many pages each section has, in their order.
///
/// # Errors
/// `AllocError` if out of memory.
pub fn page_counts(alloc: Global, sections: &[Section]) -> Result<Vec<usize>, AllocError>
    ensures { IfOk result (λ counts. counts.items ≡ page_counts sections.now) }
{
    sections
        .iter()
        .map(|section| section.bytes.items().len() / PAGE_BYTES as usize)
        .collect(alloc)
}

/// How many section blocks a section has: one for each page, and none in the page file.
pub fn section_block_count(section: &Section) -> usize
    ensures { result ≡ section_block_count section.now }
{
    match section.kind {
        SectionKind::Shared | SectionKind::Crf => section.bytes.items().len() / PAGE_BYTES as usize,
        SectionKind::Paged => 0,
    }
}

/// How many section blocks each section has, in their order.
fn block_counts(alloc: Global, sections: &[Section]) -> Result<Vec<usize>, AllocError>
    ensures { IfOk result (λ counts. counts.items ≡ block_counts sections.now) }
{
    sections.iter().map(section_block_count).collect(alloc)
}

/// How many blocks a configuration has.
///
/// # Errors
/// `NoMemory` if out of memory.
pub fn block_count(alloc: Global, config: &Config) -> Result<usize, NoMemory>
    requires { IsWellFormed config.now }
    ensures { IfOk result (λ n. n ≡ length (blocks_of config.now)) }
{
    let (_, count) = Numbers::counted(alloc, config)?;
    Ok(count as usize)
}

/// How many swap blocks each process has.
fn extents(alloc: Global, procs: &[ProcSpec]) -> Result<Vec<usize>, AllocError>
    ensures { IfOk result (λ counts. counts.items ≡ extents procs.now) }
{
    procs.iter().map(|spec| spec.extent as usize).collect(alloc)
}

/// With which number each row of blocks begins, one row after another from `from` on, and the number
/// after the last row: less than 2^32 together.
///
/// # Errors
/// `AllocError` if out of memory.
pub fn firsts(alloc: Global, from: u32, lengths: &[usize]) -> Result<(Vec<u32>, u32), AllocError>
    requires { from + sum lengths.now < 2 ^ 32 }
    ensures numbers { IfOk result (λ r. r.0.items ≡ firsts from lengths.now) }
    ensures next { IfOk result (λ r. r.1 ≡ from + sum lengths.now) }
{
    let mut numbers = Vec::with_capacity(alloc, lengths.len())?;
    let mut next = from;
    for length in lengths {
        numbers.push(next)?;
        next += *length as u32;
    }
    Ok((numbers, next))
}
