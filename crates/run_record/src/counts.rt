ghost use Rattle.std.specs.Prelude.{◌≡◌, ◌+◌, ◌^◌, ◌<◌, ◌≤◌, [], ◌∷◌, ◌++◌, min, replicate, slice_index_or, vec_capacity, vec_len, OnOk};
ghost use Rattle.run_record.specs.Tallies.{place, tallied};

use std::alloc::Global;
use vm_journal::{Entry, What};
use vm_types::NoMemory;

/// How many entries there are of each kind, in the order of `What`, and the seat of each, in a byte.
#[derive(Drop)]
pub(crate) struct Counts {
    pub kinds: [u64; 16],
    pub seats: Vec<u8>,
}

/// The place of an entry's kind among the counts. Each arm is a constant, so that no entry costs a jump
/// that depends on its kind.
fn place_of(what: What) -> usize
    ensures place { result ≡ place what }
    ensures below { result < 16 }
{
    match what {
        What::Done { .. } => 0,
        What::Denied { .. } => 1,
        What::Served { .. } => 2,
        What::Reuse { .. } => 3,
        What::Zero { .. } => 4,
        What::Back { .. } => 5,
        What::Collide { .. } => 6,
        What::In { .. } => 7,
        What::InOk { .. } => 8,
        What::InFail { .. } => 9,
        What::Out { .. } => 10,
        What::OutOk { .. } => 11,
        What::OutFail { .. } => 12,
        What::Evict { .. } => 13,
        What::Limit { .. } => 14,
        What::Turn { .. } => 15,
    }
}

impl Counts {
    /// No entries. Doesn't allocate.
    pub(crate) fn new(alloc: Global) -> Counts
        ensures kinds { result.kinds ≡ replicate 16 0 }
        ensures seats { result.seats.items ≡ [] }
    {
        Counts {
            kinds: [0; 16],
            seats: Vec::new(alloc),
        }
    }

    /// Makes room for `k` more entries.
    pub(crate) fn reserve(&mut self, k: u32) -> Result<(), NoMemory>
        ensures kinds { self.new.kinds ≡ self.old.kinds }
        ensures seats { self.new.seats.items ≡ self.old.seats.items }
        ensures no_less { vec_capacity self.old.seats ≤ vec_capacity self.new.seats }
        ensures room { OnOk result (vec_len self.new.seats + k ≤ vec_capacity self.new.seats) }
    {
        self.seats.try_reserve(k as usize)?;
        Ok(())
    }

    /// Counts one entry more. Doesn't allocate.
    pub(crate) fn count(&mut self, e: Entry)
        requires few { slice_index_or self.old.kinds (place e.what) 0 < 2 ^ 48 }
        requires room { vec_len self.old.seats < vec_capacity self.old.seats }
        ensures kinds { self.new.kinds ≡ tallied self.old.kinds e.what }
        ensures seats { self.new.seats.items ≡ self.old.seats.items ++ min (e.seat).0 255 ∷ [] }
        ensures len { vec_len self.new.seats ≡ vec_len self.old.seats + 1 }
        ensures capacity { vec_capacity self.new.seats ≡ vec_capacity self.old.seats }
    {
        self.kinds[place_of(e.what)] += 1;
        self.seats.push_reserved(e.seat.0.min(255) as u8);
    }
}
