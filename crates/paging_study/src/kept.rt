ghost use Rattle.std.specs.Prelude.{◌≡◌, ℕ, suc, false, ◌-◌, ◌<◌, ◌≤◌, ◌&&◌, nat_le, not, All, length, slice_index, slice_index_or, IfOk};
ghost use Rattle.paging_study.specs.Places.{page_at};
ghost use Rattle.paging_study.specs.Least.{is_dropped};

use std::alloc::Global;
use vm_types::NoMemory;

/// Says for each place if the interval that ends there was dropped. `drops` has at each place the end
/// of the interval that is dropped there, 0 if none is.
pub(crate) fn gone_of(alloc: Global, drops: &[u32]) -> Result<Vec<bool>, NoMemory>
    requires { All (λ end. end ≤ length drops.now) drops.now }
    ensures gone { IfOk result (λ gone. (n : ℕ) → n < length drops.now → slice_index_or gone.items n false ≡ is_dropped (page_at drops.now) (length drops.now) (suc n)) }
    ensures len { IfOk result (λ gone. length gone.items ≡ length drops.now) }
{
    let mut gone = vec![in alloc; false; drops.len()]?;
    for end in drops {
        if *end > 0 {
            gone[*end as usize - 1] = true;
        }
    }
    Ok(gone)
}

/// Says for each place if an interval begins there that was not dropped. `ends` has the ends of the
/// intervals by their first places, 0 if none begins there.
pub(crate) fn kept_of(alloc: Global, ends: &[u32], gone: &[bool]) -> Result<Vec<bool>, NoMemory>
    requires { All (λ end. end ≤ length gone.now) ends.now }
    ensures kept { IfOk result (λ kept. (i : ℕ) → i < length ends.now → slice_index_or kept.items i false ≡ (nat_le 1 (slice_index ends.now i) && not (slice_index_or gone.now (slice_index ends.now i - 1) false))) }
    ensures len { IfOk result (λ kept. length kept.items ≡ length ends.now) }
{
    let mut kept = Vec::with_capacity(alloc, ends.len())?;
    for end in ends {
        kept.push(*end > 0 && !gone[*end as usize - 1])?;
    }
    Ok(kept)
}
