ghost use Rattle.std.specs.Prelude.{◌≡◌, ℕ, Bool, ◌+◌, ◌*◌, ◌<◌, ◌≤◌, ◌==◌, ◌&&◌, ◌||◌, nat_le, not, All, length, IfOk};
ghost use Rattle.vm_types.specs.declared.limits.TheConstants.{MOST_LONG_REQUESTS};
ghost use Rattle.paging_study.specs.Places.{page_at, count_places};
ghost use Rattle.paging_study.specs.Intervals.{begins};
ghost use Rattle.paging_study.specs.Least.{is_dropped, AreEnds, AreDrops};
ghost use Rattle.paging_study.specs.Open.{HoldsPlaces, LosesLast};

use crate::place_set::PlaceSet;
use std::alloc::Global;
use vm_types::NoMemory;

/// What a pass over the places leaves.
#[derive(Debug, Drop)]
pub(crate) struct Drops {
    /// At each place the end of the interval that is dropped there, 0 if none is.
    pub(crate) ends: Vec<u32>,
    /// The references that end no kept interval.
    pub(crate) faults: u32,
}

/// Drops, at each place with more open intervals inside it than there is room for, the one that ends
/// last. `ends` says for each place where the interval from it ends, 0 if there is none.
pub(crate) fn drops_of(alloc: Global, ends: &[u32], room: usize) -> Result<Drops, NoMemory>
    requires few { length ends.now ≤ MOST_LONG_REQUESTS }
    requires within { All (λ end. end ≤ length ends.now) ends.now }
    ensures drops { IfOk result (λ d. (page : ℕ → ℕ) → AreEnds page (length ends.now) (page_at ends.now) → AreDrops page (page_at d.ends.items) (length ends.now) room) }
    ensures faults { IfOk result (λ d. (page : ℕ → ℕ) → AreEnds page (length ends.now) (page_at ends.now) → d.faults + count_places (λ n. nat_le 1 (begins page n) && not (is_dropped (page_at d.ends.items) (length ends.now) n)) (length ends.now) ≡ length ends.now) }
    ensures len { IfOk result (λ d. length d.ends.items ≡ length ends.now) }
{
    let mut drops = Vec::with_capacity(alloc, ends.len())?;
    let mut open = PlaceSet::new(alloc, ends.len())?;
    let mut faults = 0;
    for (i, end) in ends.iter().enumerate() {
        let was_open = open.remove(i);
        faults += u32::from(!was_open);
        let dropped = drop_last(&mut open, room);
        drops.push(dropped)?;
        begin(&mut open, *end);
    }
    Ok(Drops {
        ends: drops,
        faults,
    })
}

/// With more intervals open than there is room for, the one that ends last is dropped: its end; 0 if
/// none is dropped.
fn drop_last(ends: &mut PlaceSet, room: usize) -> u32
    requires { length ends.old ≤ 2 * MOST_LONG_REQUESTS }
    ensures loses { (test : ℕ → Bool) → (places : ℕ) → places ≤ length ends.old → HoldsPlaces ends.old test places → LosesLast ends.old ends.new room result test places }
    ensures len { length ends.new ≡ length ends.old }
{
    if ends.len() <= room {
        return 0;
    }
    ends.pop_last() as u32 + 1
}

/// Opens the interval that ends there, if there is one.
fn begin(ends: &mut PlaceSet, end: u32)
    requires { end ≤ length ends.old }
    ensures opened { (test : ℕ → Bool) → (places : ℕ) → end ≤ places → HoldsPlaces ends.old test places → HoldsPlaces ends.new (λ e. test e || e == end) places }
    ensures len { length ends.new ≡ length ends.old }
{
    if end > 0 {
        ends.insert(end as usize - 1);
    }
}
