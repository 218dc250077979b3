//! Of each block that has failed the count of failures that its last failed transfer left.

ghost use Rattle.std.specs.Prelude.{◌≡◌, ◌<◌, ◌≤◌, ℕ, true, List, None, length, slice_get, Some, OnOk, OnErr};
ghost use Rattle.vm_types.specs.Same.{same_block};
ghost use Rattle.vm_types.specs.declared.names.BlockId.{BlockId};
ghost use Rattle.vm_journal.specs.declared.entry.Entry.{Entry};
ghost use Rattle.pager_model.specs.Counted.{with_count};
ghost use Rattle.pager_model.specs.Flights.{open_flights};
ghost use Rattle.shadow_history.specs.Landed.{failure_in};
ghost use Rattle.shadow_history.specs.declared.count.Count.{Count};
ghost use Rattle.shadow_history.specs.Counting.{AreOthers, IsCountSet, count_of};

use crate::count::Count;
use crate::flights::Flights;
use vm_journal::What;
use vm_types::{BlockId, NoMemory, is_same_block};

/// The place of the block's count; the length if there is none.
fn place_of(counts: &[Count], block: BlockId) -> usize
    ensures within { result ≤ length counts.now }
    ensures before { AreOthers block counts.now result }
    ensures found { (x : Count) → slice_get counts.now result ≡ Some x → same_block block x.block ≡ true }
{
    for (i, x) in counts.iter().enumerate() {
        if is_same_block(block, x.block) {
            return i;
        }
    }
    counts.len()
}

/// The count of the block, 0 if it hasn't failed.
pub(crate) fn count_in(counts: &[Count], block: BlockId) -> u64
    ensures { result ≡ count_of block counts.now }
{
    let i = place_of(counts, block);
    if i < counts.len() {
        counts[i].faults
    } else {
        0
    }
}

/// Sets the count of the block, which is added if there is none.
fn set_in(counts: &mut Vec<Count>, block: BlockId, faults: u64) -> Result<(), NoMemory>
    ensures ok { OnOk result (IsCountSet block faults counts.old.items counts.new.items) }
    ensures err { OnErr result (counts.new.items ≡ counts.old.items) }
{
    let i = place_of(counts, block);
    if i < counts.len() {
        counts[i] = Count { block, faults };
    } else {
        counts.push(Count { block, faults })?;
    }
    Ok(())
}

/// The flight that the entry says has failed, by the number of the entry that began it, and the count
/// that it leaves.
fn failure_in(what: What) -> Option<(u64, u64)>
    ensures { result ≡ failure_in what }
{
    match what {
        What::InFail { k, d, .. } => Some((k, d)),
        What::OutFail { k, d, .. } => Some((k, d)),
        _ => None,
    }
}

/// The counts after an entry, before which these flights were open.
///
/// # Errors
/// `NoMemory` if out of memory; the counts are then as before.
pub(crate) fn count_failure(
    counts: &mut Vec<Count>,
    flights: &Flights,
    what: What,
) -> Result<(), NoMemory>
    ensures ok { OnOk result ((past : List Entry) → flights.now ≡ open_flights past → (b : BlockId) → count_of b counts.new.items ≡ with_count b past what (count_of b counts.old.items)) }
    ensures err { OnErr result (counts.new.items ≡ counts.old.items) }
    ensures quiet { failure_in what ≡ None → counts.new.items ≡ counts.old.items }
{
    if let Some((k, faults)) = failure_in(what) {
        if let Some(x) = flights.find(k) {
            set_in(counts, x.block(), faults)?;
        }
    }
    Ok(())
}
