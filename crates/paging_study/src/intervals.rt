ghost use Rattle.std.specs.Prelude.{◌≡◌, ℕ, suc, ◌-◌, ◌<◌, ◌≤◌, length, slice_index, slice_set, IfOk};
ghost use Rattle.vm_types.specs.declared.limits.TheConstants.{MOST_LONG_REQUESTS};
ghost use Rattle.paging_study.specs.Places.{page_at};
ghost use Rattle.paging_study.specs.Least.{AreBegins, AreEnds};

use page_rows::PageRows;
use std::alloc::Global;
use vm_types::NoMemory;

/// For each reference the place of the last one before it to the same page, counted from 1; 0 if
/// there is none.
pub(crate) fn begins_of(alloc: Global, pages: &[u32]) -> Result<Vec<u32>, NoMemory>
    requires { length pages.now ≤ MOST_LONG_REQUESTS }
    ensures begins { IfOk result (λ firsts. AreBegins (page_at pages.now) firsts.items) }
    ensures len { IfOk result (λ firsts. length firsts.items ≡ length pages.now) }
{
    let mut firsts = Vec::with_capacity(alloc, pages.len())?;
    let mut last = PageRows::new(alloc, greatest(pages) as usize / 64 + 1)?;
    for (i, page) in pages.iter().enumerate() {
        let first: Option<u32> = last.get(*page as usize);
        last.set(*page as usize, Some(i as u32 + 1));
        firsts.push(first.unwrap_or(0))?;
    }
    Ok(firsts)
}

/// The greatest of these pages; 0 if there is none.
fn greatest(pages: &[u32]) -> u32
    ensures { (i : ℕ) → i < length pages.now → slice_index pages.now i ≤ result }
{
    pages.iter().copied().max().unwrap_or(0)
}

/// For each reference the place of the next one to the same page, counted from 1; 0 if there is none.
/// `firsts` has for each the place of the last one before it.
pub(crate) fn ends_of(alloc: Global, firsts: &[u32]) -> Result<Vec<u32>, NoMemory>
    requires few { length firsts.now ≤ MOST_LONG_REQUESTS }
    requires before { (i : ℕ) → i < length firsts.now → slice_index firsts.now i ≤ i }
    ensures ends { IfOk result (λ ends. (page : ℕ → ℕ) → AreBegins page firsts.now → AreEnds page (length firsts.now) (page_at ends.items)) }
    ensures len { IfOk result (λ ends. length ends.items ≡ length firsts.now) }
{
    let mut ends = vec![in alloc; 0; firsts.len()]?;
    for (i, first) in firsts.iter().enumerate() {
        set_end(&mut ends, *first, i as u32 + 1);
    }
    Ok(ends)
}

/// The interval from the first place on, if there is one, ends at the other one.
fn set_end(ends: &mut Vec<u32>, first: u32, place: u32)
    requires { first ≤ length ends.old.items }
    ensures none { first ≡ 0 → ends.new.items ≡ ends.old.items }
    ensures set { 1 ≤ first → ends.new.items ≡ slice_set ends.old.items (first - 1) place }
    ensures len { length ends.new.items ≡ length ends.old.items }
{
    if first > 0 {
        ends[first as usize - 1] = place;
    }
}
