ghost use Rattle.std.specs.Prelude.{◌≡◌, ℕ, ◌+◌, ◌^◌, ◌<◌, ◌≤◌, ◌++◌, ◌∷◌, [], ◌||◌, ◌==◌, ◌&&◌, nat_le, nat_lt, length, OnOk, IfOk};
ghost use Rattle.std.specs.Ordering.{nat_cmp};
ghost use Rattle.std.specs.BTreeSet.{contains};
ghost use Rattle.vm_types.specs.declared.limits.TheConstants.{MOST_SECTION_PAGES};
ghost use Rattle.trace_lines.specs.Lookups.{bytes_at};
ghost use Rattle.trace_reader.specs.Changes.{blank_section, overwritten, with_bytes};

use std::alloc::Global;
use std::collections::BTreeSet;
use vm_types::{BlockId, Fails, Listed, NoMemory, PAGE_BYTES, Section, SectionKind};

/// Adds a number to a set.
pub(crate) fn add(set: &mut BTreeSet<u64>, key: u64) -> Result<(), NoMemory>
    ensures { OnOk result ((q : ℕ) → contains nat_cmp set.new q ≡ (contains nat_cmp set.old q || (key == q))) }
{
    set.insert(key)?;
    Ok(())
}

/// Adds so many numbers to a set, from the first on.
pub(crate) fn add_range(set: &mut BTreeSet<u64>, first: u64, count: u32) -> Result<(), NoMemory>
    requires { first + count < 2 ^ 64 }
    ensures { OnOk result ((q : ℕ) → contains nat_cmp set.new q ≡ (contains nat_cmp set.old q || (nat_le first q && nat_lt q (first + count)))) }
{
    for k in 0..count {
        add(set, first + u64::from(k))?;
    }
    Ok(())
}

/// A section of zeros.
pub(crate) fn blank(
    alloc: Global,
    name: &[u8],
    kind: SectionKind,
    pages: u32,
) -> Result<Section, NoMemory>
    requires { pages ≤ MOST_SECTION_PAGES }
    ensures { IfOk result (λ section. section ≡ blank_section name.now kind pages) }
{
    let count = PAGE_BYTES as usize * pages as usize;
    Ok(Section {
        name: Listed::of(name.to_vec(alloc)?),
        kind,
        bytes: Listed::of(vec![in alloc; 0; count]?),
    })
}

fn overwrite(bytes: &mut Listed<u8>, at: usize, new: &[u8])
    requires { at + length new.now ≤ length bytes.old }
    ensures { bytes.new ≡ overwritten bytes.old at new.now }
{
    let items = bytes.items_mut();
    items[at..at + new.len()].copy_from_slice(new);
}

/// Writes bytes into the section of this number. Doesn't allocate.
pub(crate) fn write_bytes(sections: &mut Listed<Section>, s: usize, at: usize, new: &[u8])
    requires there { s < length sections.old }
    requires room { at + length new.now ≤ bytes_at sections.old s }
    ensures { sections.new ≡ with_bytes sections.old s at new.now }
{
    let items = sections.items_mut();
    let section = &mut items[s];
    overwrite(&mut section.bytes, at, new);
}

/// A block and its calls that fail.
pub(crate) fn fails_of(alloc: Global, block: BlockId, calls: &[u32]) -> Result<Fails, NoMemory>
    ensures { IfOk result (λ fails. fails ≡ record { block = block; calls = calls.now }) }
{
    Ok(Fails {
        block,
        calls: Listed::of(calls.to_vec(alloc)?),
    })
}
