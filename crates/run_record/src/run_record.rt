ghost use Rattle.std.specs.Prelude.{◌≡◌, ◌+◌, ◌-◌, ◌^◌, ◌<◌, ◌≤◌, [], ◌∷◌, ◌++◌, true, false, length, min, slice_index_or, OnOk, OnErr};
ghost use Rattle.vm_journal.specs.Journal.{answers_in};
ghost use Rattle.run_record.specs.Tallies.{tallies_of};

use crate::counts::Counts;
use std::alloc::Global;
use std::marker::Model;
use vm_journal::{Entry, Past, is_answer};
use vm_types::{NoMemory, Seat};

/// The most entries that are recorded or that there is room for.
const MOST: u64 = 0x1_0000_0000_0000;

/// What is kept of the entries.
#[derive(Drop)]
pub(crate) enum Kept {
    /// All of them.
    All(Vec<Entry>),
    /// How many there are.
    Counts(Counts),
}

/// The entries of a run, oldest first, and how many more can be written without memory. It keeps the
/// entries themselves, or only counts them. Contracts see the entries either way.
#[derive(Drop)]
pub struct RunRecord {
    alloc: Global,
    past: Past,
    len: u64,
    answers: u64,
    spare: u32,
    kept: Kept,
}

impl Model for RunRecord {
    ghost use Rattle.std.specs.Prelude.{reverse};
    ghost use Rattle.run_record.specs.RunRecord.{IsRecord, Recorded, keeps_all};

    ghost Value = { Recorded };

    ghost view = { λ r. record {
      entries = reverse r.past.entries;
      spare = r.spare;
      keeps = keeps_all r.kept;
    } };

    ghost invariant = { λ r. IsRecord (reverse r.past.entries) r.len r.answers r.spare r.kept };
}

impl RunRecord {
    ghost use Rattle.run_record.specs.RunRecord.{IsRecorded, keeps_all, seat_bytes};

    /// No entries, all of which are to be kept, and nothing spare. Doesn't allocate.
    pub fn new(alloc: Global) -> RunRecord
        ensures { result ≡ record { entries = []; spare = 0; keeps = true } }
    {
        RunRecord::empty(alloc, Kept::All(Vec::new(alloc)))
    }

    /// No entries, which are to be counted, and nothing spare. Doesn't allocate.
    #[tactic(auto, using(crate::proofs::Tallies::tallies_none))]
    pub fn counting(alloc: Global) -> RunRecord
        ensures { result ≡ record { entries = []; spare = 0; keeps = false } }
    {
        RunRecord::empty(alloc, Kept::Counts(Counts::new(alloc)))
    }

    /// No entries, kept in this, and nothing spare. Doesn't allocate.
    fn empty(alloc: Global, kept: Kept) -> RunRecord
        requires { IsRecorded [] 0 kept }
        ensures { result ≡ record { entries = []; spare = 0; keeps = keeps_all kept } }
    {
        RunRecord {
            alloc,
            past: Past::new(),
            len: 0,
            answers: 0,
            spare: 0,
            kept,
        }
    }

    /// How many entries there are.
    pub fn len(&self) -> u64
        ensures len { result ≡ length self.now.entries }
        ensures within { length self.now.entries + self.now.spare ≤ 2 ^ 48 }
    {
        self.len
    }

    /// How many more entries can be written without memory.
    pub fn spare(&self) -> u32
        ensures { result ≡ self.now.spare }
    {
        self.spare
    }

    /// How many of the entries answer a request. It is kept: no entry is looked at.
    pub fn answers(&self) -> u64
        ensures { result ≡ answers_in self.now.entries }
    {
        self.answers
    }

    /// The entries, oldest first, if they are kept; else no entries. Doesn't allocate.
    pub fn entries(&self) -> &[Entry]
        ensures kept { self.now.keeps ≡ true → result.now ≡ self.now.entries }
        ensures none { self.now.keeps ≡ false → result.now ≡ [] }
    {
        match &self.kept {
            Kept::All(entries) => entries.as_slice(),
            Kept::Counts(..) => &[],
        }
    }

    /// Makes room for at least `k` more entries. Doesn't allocate if there is as much already.
    ///
    /// # Errors
    /// `NoMemory` if memory ran out, or if there would be more than 2^48 entries and spare places together;
    /// only if `spare` was below `k`. The record is then as before.
    pub fn reserve(&mut self, k: u32) -> Result<(), NoMemory>
        ensures room { OnOk result (k ≤ self.new.spare) }
        ensures no_memory { OnErr result (self.old.spare < k) }
        ensures err { OnErr result (self.new ≡ self.old) }
        ensures entries { self.new.entries ≡ self.old.entries }
        ensures keeps { self.new.keeps ≡ self.old.keeps }
        ensures no_less { self.old.spare ≤ self.new.spare }
        ensures within { length self.new.entries + self.new.spare ≤ 2 ^ 48 }
    {
        if self.spare < k {
            if self.len > MOST - u64::from(k) {
                return Err(NoMemory);
            }
            match &mut self.kept {
                Kept::All(entries) => entries.try_reserve(k as usize)?,
                Kept::Counts(counts) => counts.reserve(k)?,
            }
            self.spare = k;
        }
        Ok(())
    }

    /// Writes an entry. Doesn't allocate.
    #[tactic(auto, using(crate::proofs::Recorded::reverse_more, crate::proofs::Tallies::tally_most, crate::proofs::Tallies::answers_most, crate::proofs::Tallies::answers_more, crate::proofs::Tallies::tallied_more))]
    pub fn push(&mut self, e: Entry)
        requires { 0 < self.old.spare }
        ensures { self.new ≡ record self.old { entries = self.old.entries ++ e ∷ []; spare = self.old.spare - 1 } }
    {
        self.past = self.past.then(&e);
        self.len += 1;
        self.spare -= 1;
        self.answers += u64::from(is_answer(e.what));
        match &mut self.kept {
            Kept::All(entries) => entries.push_reserved(e),
            Kept::Counts(counts) => counts.count(e),
        }
    }

    /// The seat of the entry with this number, from 1 on. A number of 255 or more may be another one of
    /// these, if the entries aren't kept.
    pub fn seat_of(&self, number: u64) -> Seat
        requires some { 1 ≤ number }
        requires within { number ≤ length self.now.entries }
        ensures { min result.0 255 ≡ slice_index_or (seat_bytes self.now.entries) (number - 1) 0 }
    {
        match &self.kept {
            Kept::All(entries) => entries[number as usize - 1].seat,
            Kept::Counts(counts) => Seat(u32::from(counts.seats[number as usize - 1])),
        }
    }

    /// How many entries there are of each kind, in the order of `What`, if the entries aren't kept.
    pub fn kinds(&self) -> [u64; 16]
        ensures { self.now.keeps ≡ false → result ≡ tallies_of self.now.entries }
    {
        match &self.kept {
            Kept::All(_) => [0; 16],
            Kept::Counts(counts) => counts.kinds,
        }
    }

    /// Gives the entries, oldest first, if they are kept; else no entries. Doesn't allocate.
    pub fn into_entries(self) -> Vec<Entry>
        ensures { self.keeps ≡ true → result.items ≡ self.entries }
    {
        let RunRecord { alloc, kept, .. } = self;
        match kept {
            Kept::All(entries) => entries,
            Kept::Counts(..) => Vec::new(alloc),
        }
    }
}

fn is_send<X: Send>(_: &X) {}

/// A record may be moved to another thread.
pub fn record_is_moved(run_record: &RunRecord) {
    is_send(run_record);
}
