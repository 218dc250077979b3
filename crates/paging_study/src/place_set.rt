ghost use Rattle.std.specs.Prelude.{◌≡◌, ℕ, true, false, ◌*◌, ◌<◌, ◌≤◌, All, length, slice_set, slice_index_or, IfOk};
ghost use Rattle.vm_types.specs.declared.limits.TheConstants.{MOST_LONG_REQUESTS};
ghost use Rattle.paging_study.specs.Places.{flag_at, count_places};

use crate::bits::{clear_bit, has_bit, last_bit, set_bit};
use std::alloc::Global;
use std::marker::Model;
use vm_types::NoMemory;

/// A set of places. Each step looks at four words.
#[derive(Debug, Drop)]
pub(crate) struct PlaceSet {
    /// A bit for each place.
    words: Vec<u64>,
    /// A bit for each word, set if a bit of the word is.
    tops: Vec<u64>,
    /// The same for the words of `tops`.
    roots: Vec<u64>,
    /// The same for the words of `roots`, in one word.
    crowns: Vec<u64>,
    /// How many places are in the set.
    count: usize,
}

impl Model for PlaceSet {
    ghost use Rattle.std.specs.Prelude.{List, Bool};
    ghost use Rattle.paging_study.specs.Bits.{flags_of, AreLevels};

    ghost Value = { List Bool };

    ghost view = { λ s. flags_of s.words.items };

    ghost invariant = { λ s. AreLevels s.words.items s.tops.items s.roots.items s.crowns.items s.count };
}

impl PlaceSet {
    /// A set of none, for so many places.
    pub(crate) fn new(alloc: Global, places: usize) -> Result<PlaceSet, NoMemory>
        requires { places ≤ MOST_LONG_REQUESTS }
        ensures none { IfOk result (λ set. All (λ flag. flag ≡ false) set) }
        ensures room { IfOk result (λ set. (places < length set) × (length set ≤ 2 * MOST_LONG_REQUESTS)) }
    {
        let count = places / 64 + 1;
        let words = vec![in alloc; 0; count]?;
        let tops = vec![in alloc; 0; count / 64 + 1]?;
        let roots = vec![in alloc; 0; (count / 64 + 1) / 64 + 1]?;
        let crowns = vec![in alloc; 0; 1]?;
        Ok(PlaceSet {
            words,
            tops,
            roots,
            crowns,
            count: 0,
        })
    }

    /// How many places are in the set.
    pub(crate) fn len(&self) -> usize
        ensures { result ≡ count_places (flag_at self.now) (length self.now) }
    {
        self.count
    }

    /// Puts the place after `i` in. Doesn't allocate.
    pub(crate) fn insert(&mut self, i: usize)
        requires { i < length self.old }
        ensures { self.new ≡ slice_set self.old i true }
    {
        self.count += usize::from(!has_bit(&self.words, i));
        set_bit(&mut self.words, i);
        set_bit(&mut self.tops, i / 64);
        set_bit(&mut self.roots, i / 64 / 64);
        set_bit(&mut self.crowns, i / 64 / 64 / 64);
    }

    /// Takes the place after `i` out. Says if it was in.
    pub(crate) fn remove(&mut self, i: usize) -> bool
        requires { i < length self.old }
        ensures was { result ≡ slice_index_or self.old i false }
        ensures set { self.new ≡ slice_set self.old i false }
    {
        let was = has_bit(&self.words, i);
        if was {
            self.take(i);
        }
        was
    }

    /// Takes the last place out, and gives the number before it.
    pub(crate) fn pop_last(&mut self) -> usize
        requires { 0 < count_places (flag_at self.old) (length self.old) }
        ensures within { result < length self.old }
        ensures had { slice_index_or self.old result false ≡ true }
        ensures last { (i : ℕ) → slice_index_or self.old i false ≡ true → i ≤ result }
        ensures set { self.new ≡ slice_set self.old result false }
    {
        let root = last_bit(&self.crowns, 0);
        let top = last_bit(&self.roots, root);
        let word = last_bit(&self.tops, top);
        let last = last_bit(&self.words, word);
        self.take(last);
        last
    }

    /// Takes the place after `i` out, which is in.
    fn take(&mut self, i: usize)
        requires { slice_index_or self.old i false ≡ true }
        ensures { self.new ≡ slice_set self.old i false }
    {
        let empty = clear_bit(&mut self.words, i, true);
        let empty = clear_bit(&mut self.tops, i / 64, empty);
        let empty = clear_bit(&mut self.roots, i / 64 / 64, empty);
        clear_bit(&mut self.crowns, i / 64 / 64 / 64, empty);
        self.count -= 1;
    }
}
