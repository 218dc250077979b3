ghost use Rattle.std.specs.Prelude.{◌≡◌, ℕ, false};
ghost use Rattle.std.specs.Ordering.{nat_cmp};
ghost use Rattle.std.specs.BTreeSet.{contains};
ghost use Rattle.trace_lines.specs.Keys.{page_key, block_key};

use std::alloc::Global;
use std::collections::BTreeSet;
use vm_types::{BlockId, MOST_EXTENT, MOST_SECTION_PAGES};

/// What the lines so far name, kept so that a line costs no more as the trace grows: the bad frames,
/// the mapped pages by [`page_key`], and the blocks with failing calls by [`block_key`].
#[derive(Debug, Drop)]
pub struct Seen {
    pub bad: BTreeSet<u64>,
    pub pages: BTreeSet<u64>,
    pub blocks: BTreeSet<u64>,
}

/// The number under which a page is kept, by its process and its address divided by 512.
pub fn page_key(proc: u32, page: u32) -> u64
    ensures { result ≡ page_key proc page }
{
    8_388_608 * u64::from(proc) + u64::from(page)
}

/// The number under which a block is kept.
pub fn block_key(block: BlockId) -> u64
    ensures { result ≡ block_key block }
{
    match block {
        BlockId::Section(section, page) => {
            u64::from(MOST_SECTION_PAGES) * u64::from(section.0) + u64::from(page)
        }
        BlockId::PageFile(block) => 1_048_576 + u64::from(block),
        BlockId::Swap(proc, slot) => {
            2_097_152 + u64::from(MOST_EXTENT) * u64::from(proc.0) + u64::from(slot)
        }
    }
}

impl Seen {
    /// Nothing is named yet. Doesn't allocate.
    pub fn new(alloc: Global) -> Seen
        ensures bad { (key : ℕ) → contains nat_cmp result.bad key ≡ false }
        ensures pages { (key : ℕ) → contains nat_cmp result.pages key ≡ false }
        ensures blocks { (key : ℕ) → contains nat_cmp result.blocks key ≡ false }
    {
        Seen {
            bad: BTreeSet::new(alloc),
            pages: BTreeSet::new(alloc),
            blocks: BTreeSet::new(alloc),
        }
    }
}
