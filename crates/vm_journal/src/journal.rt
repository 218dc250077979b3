ghost use Rattle.std.specs.Prelude.{◌≡◌, ◌+◌, ◌-◌, ◌^◌, ◌<◌, ◌≤◌, [], ◌∷◌, ◌++◌, length, OnOk, OnErr};
ghost use Rattle.vm_journal.specs.Journal.{answers_in, is_answer};

use crate::entry::{Entry, What};
use crate::kept::Kept;
use std::alloc::Global;
use std::marker::Model;
use vm_types::NoMemory;

/// The most entries that a journal holds or has room for.
const MOST: usize = 0x1_0000_0000_0000;

/// The list of what was done, oldest first. Contracts see its entries, and how many more can be
/// written without memory; together these are at most 2^48. How many of the entries answer a request is
/// counted as they are written.
#[derive(Debug, Drop)]
pub struct Journal {
    entries: Vec<Entry>,
    spare: u32,
    answers: u64,
}

impl Model for Journal {
    ghost use Rattle.std.specs.Prelude.{◌≡◌, vec_len, vec_capacity};
    ghost use Rattle.vm_journal.specs.Journal.{IsRoomy, Written, answers_in};

    ghost Value = { Written };

    ghost view = { λ j. record { entries = j.entries.items; spare = j.spare } };

    ghost invariant = { λ j. IsRoomy (vec_len j.entries) j.spare (vec_capacity j.entries) × (j.answers ≡ answers_in j.entries.items) };
}

/// Whether an entry answers a request.
pub fn is_answer(what: What) -> bool
    ensures { result ≡ is_answer what }
{
    matches!(
        what,
        What::Done { .. } | What::Denied { .. } | What::Served { .. }
    )
}

impl Journal {
    /// No entries, and nothing spare. Doesn't allocate.
    pub fn new(alloc: Global) -> Journal
        ensures { result ≡ record { entries = []; spare = 0 } }
    {
        Journal {
            entries: Vec::new(alloc),
            spare: 0,
            answers: 0,
        }
    }

    /// Makes room for at least `k` more entries. Doesn't allocate if there is as much already; if it
    /// allocates, the journal's memory at least doubles, so that an entry costs no more in a long
    /// journal than in a short one.
    ///
    /// # Errors
    /// `NoMemory` if memory ran out, or if the journal would have more than 2^48 entries and spare
    /// places together; only if `spare` was below `k`. The journal is then as before.
    pub fn reserve(&mut self, k: u32) -> Result<(), NoMemory>
        ensures room { OnOk result (k ≤ self.new.spare) }
        ensures no_memory { OnErr result (self.old.spare < k) }
        ensures err { OnErr result (self.new ≡ self.old) }
        ensures entries { self.new.entries ≡ self.old.entries }
        ensures no_less { self.old.spare ≤ self.new.spare }
        ensures within { length self.new.entries + self.new.spare ≤ 2 ^ 48 }
    {
        if self.spare < k {
            if self.entries.len() > MOST - k as usize {
                return Err(NoMemory);
            }
            self.entries.try_reserve(k as usize)?;
            self.spare = k;
        }
        Ok(())
    }

    /// Writes an entry. Doesn't allocate.
    pub fn push(&mut self, e: Entry)
        requires { 0 < self.old.spare }
        ensures { self.new ≡ record { entries = self.old.entries ++ e ∷ []; spare = self.old.spare - 1 } }
    {
        if is_answer(e.what) {
            self.answers += 1;
        }
        self.entries.push_reserved(e);
        self.spare -= 1;
    }

    /// The entries, oldest first. Doesn't allocate.
    pub fn entries(&self) -> &[Entry]
        ensures entries { result.now ≡ self.now.entries }
        ensures within { length self.now.entries + self.now.spare ≤ 2 ^ 48 }
    {
        self.entries.as_slice()
    }

    /// How many more entries can be written without memory.
    pub fn spare(&self) -> u32
        ensures { result ≡ self.now.spare }
    {
        self.spare
    }

    /// How many of the entries answer a request. It is kept: no entry is looked at.
    pub fn answers(&self) -> u64
        ensures { result ≡ answers_in self.now.entries }
    {
        self.answers
    }

    /// Gives the entries, oldest first. Doesn't allocate.
    pub fn into_entries(self) -> Vec<Entry>
        ensures { result.items ≡ self.entries }
    {
        self.entries
    }
}

impl Kept for Journal {
    type Base = ();

    ghost journal = { λ j. j.entries };

    ghost base = { λ _. tt };

    fn entries(&self) -> &[Entry] {
        self.entries.as_slice()
    }
}
