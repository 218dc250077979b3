ghost use Rattle.std.specs.Prelude.{◌≡◌, ℕ, suc, ◌<◌, ◌≤◌, true, AllPairs, length, IfOk};
ghost use Rattle.vm_types.specs.declared.limits.TheConstants.{MOST_LONG_REQUESTS};
ghost use Rattle.paging_study.specs.Places.{page_at, has, count_places, flag_at};
ghost use Rattle.paging_study.specs.Least.{AreCuts};

use std::alloc::Global;
use vm_types::NoMemory;

/// Says for each place if it is a cut: an interval is dropped there, and no later cut is before its
/// end. `drops` has at each place the end of the interval that is dropped there, 0 if none is.
pub(crate) fn cut_flags(alloc: Global, drops: &[u32]) -> Result<Vec<bool>, NoMemory>
    requires { length drops.now ≤ MOST_LONG_REQUESTS }
    ensures cuts { IfOk result (λ flags. AreCuts (page_at drops.now) (length drops.now) (flag_at flags.items)) }
    ensures len { IfOk result (λ flags. length flags.items ≡ length drops.now) }
{
    let mut flags = vec![in alloc; false; drops.len()]?;
    let mut last = u32::MAX;
    let mut left = drops.len();
    while left > 0 {
        let end = drops[left - 1];
        if end > 0 && end <= last {
            flags[left - 1] = true;
            last = left as u32;
        }
        left -= 1;
    }
    Ok(flags)
}

/// The places, from 1, whose flag is set, in order.
pub(crate) fn places_of(alloc: Global, flags: &[bool]) -> Result<Vec<u32>, NoMemory>
    requires { length flags.now ≤ MOST_LONG_REQUESTS }
    ensures ascending { IfOk result (λ places. AllPairs (λ a b. a < b) places.items) }
    ensures same { IfOk result (λ places. (i : ℕ) → i < length flags.now → has places.items (suc i) ≡ flag_at flags.now (suc i)) }
    ensures range { IfOk result (λ places. (place : ℕ) → has places.items place ≡ true → (1 ≤ place) × (place ≤ length flags.now)) }
    ensures count { IfOk result (λ places. length places.items ≡ count_places (flag_at flags.now) (length flags.now)) }
{
    let mut places = Vec::with_capacity(alloc, flags.len())?;
    for (i, flag) in flags.iter().enumerate() {
        if *flag {
            places.push(i as u32 + 1)?;
        }
    }
    Ok(places)
}
