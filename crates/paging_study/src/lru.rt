ghost use Rattle.std.specs.Prelude.{◌≡◌, ℕ, suc, false, ◌+◌, ◌<◌, ◌≤◌, ◌==◌, ◌&&◌, ◌||◌, nat_lt, nat_le, not, length, slice_index, slice_index_or, IfOk};
ghost use Rattle.vm_types.specs.declared.limits.TheConstants.{MOST_LONG_REQUESTS, MOST_STUDY_FRAMES};
ghost use Rattle.paging_study.specs.Places.{one_if, page_at, flag_at, count_places};
ghost use Rattle.paging_study.specs.Recency.{is_hit, is_at_distance};

use crate::marks::Marks;
use crate::string::PageString;
use std::alloc::Global;
use vm_types::NoMemory;

/// The faults that references to these pages have if the least recently used page is replaced: with
/// one frame, with two, and so on up to so many, 1 to 1024. Takes time as the number of references,
/// and a 128th part of the references since the last one to the same page for each.
///
/// # Errors
/// `NoMemory` if memory runs out.
pub fn lru_faults(alloc: Global, pages: &PageString, frames: u32) -> Result<Vec<u32>, NoMemory>
    requires { (1 ≤ frames) × (frames ≤ MOST_STUDY_FRAMES) }
    ensures len { IfOk result (λ faults. length faults.items ≡ frames) }
    ensures faults { IfOk result (λ faults. (j : ℕ) → j < frames → slice_index faults.items j ≡ count_places (λ n. not (is_hit (page_at pages.now.pages.items) (suc j) n)) (length pages.now.pages.items)) }
{
    let hits = hits_of(alloc, pages, frames)?;
    let mut faults = Vec::with_capacity(alloc, hits.len())?;
    let mut left = pages.pages.len() as u32;
    for more in &hits {
        left -= *more;
        faults.push(left)?;
    }
    Ok(faults)
}

/// For each number below `frames` the references with so many distinct other pages since the last one
/// to their page.
fn hits_of(alloc: Global, pages: &PageString, frames: u32) -> Result<Vec<u32>, NoMemory>
    requires { frames ≤ MOST_STUDY_FRAMES }
    ensures len { IfOk result (λ hits. length hits.items ≡ frames) }
    ensures hits { IfOk result (λ hits. (d : ℕ) → d < frames → slice_index hits.items d ≡ count_places (is_at_distance (page_at pages.now.pages.items) d) (length pages.now.pages.items)) }
{
    let mut hits = vec![in alloc; 0; frames as usize]?;
    let mut last = Marks::new(alloc, pages.firsts.len())?;
    for (i, first) in pages.firsts.iter().enumerate() {
        let between = since(&last, *first, i);
        count_hit(&mut hits, *first, between);
        move_last(&mut last, *first, i);
    }
    Ok(hits)
}

/// How many of the places after the first one and up to `i` are marked, after which none is; 0 if there
/// is no first one.
fn since(last: &Marks, first: u32, i: usize) -> usize
    requires order { first ≤ i }
    requires within { i < length last.now.flags.items }
    requires rest { (n : ℕ) → i ≤ n → flag_at last.now.flags.items (suc n) ≡ false }
    ensures { 1 ≤ first → result ≡ count_places (λ n. nat_lt first n && flag_at last.now.flags.items n) i }
{
    if first == 0 {
        return 0;
    }
    last.count(first as usize, i)
}

/// Counts a reference, if its page was referenced before, among those with so many other pages since.
fn count_hit(hits: &mut Vec<u32>, first: u32, between: usize)
    requires { (d : ℕ) → d < length hits.old.items → slice_index hits.old.items d < MOST_LONG_REQUESTS }
    ensures hits { (d : ℕ) → d < length hits.old.items → slice_index hits.new.items d ≡ slice_index hits.old.items d + one_if (nat_le 1 first && between == d) }
    ensures len { length hits.new.items ≡ length hits.old.items }
{
    if first > 0 && between < hits.len() {
        hits[between] += 1;
    }
}

/// The place after `i` is the last one with its page now, and the first one, if there is one, no
/// longer is.
fn move_last(last: &mut Marks, first: u32, i: usize)
    requires first { first ≤ length last.old.flags.items }
    requires place { i < length last.old.flags.items }
    ensures last { (n : ℕ) → n < length last.old.flags.items → slice_index_or last.new.flags.items n false ≡ ((slice_index_or last.old.flags.items n false && not (suc n == first)) || n == i) }
    ensures len { length last.new.flags.items ≡ length last.old.flags.items }
{
    if first > 0 {
        last.set(first as usize - 1, false);
    }
    last.set(i, true);
}
