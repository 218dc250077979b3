ghost use Rattle.std.specs.Prelude.{◌≡◌, ℕ, None, Some, ◌<◌, IfOk};
ghost use Rattle.std.specs.Option.{option_map};
ghost use Rattle.pte_forms.specs.Word.{word_of};
ghost use Rattle.vm_types.specs.PagePlaces.{changed_at};

use crate::look::Look;
use crate::packed::{ABSENT, entry_by, word_at};
use pte_forms::{Pte, to_word};
use std::alloc::Global;
use std::marker::Model;
use vm_types::{NoMemory, PRIVATE_PAGES, Proc, page_place};

/// The page tables of the processes, each over P0 pages 0 to 4095 and the last 1024 pages of P1. A
/// page is numbered by its first address divided by 512. No entry has the modify mark, which the
/// frame's row keeps. Source: VAX Architecture Reference Manual, memory management.
#[derive(Debug, Drop)]
pub struct Tables {
    procs: u32,
    words: Vec<u32>,
}

impl Model for Tables {
    ghost use Rattle.page_tables.specs.PageTables.{PageTables};
    ghost use Rattle.page_tables.specs.Packed.{ArePacked, entries_in};

    ghost Value = { PageTables };

    ghost view = { λ t. record { procs = t.procs; entries = entries_in t.words.items } };

    ghost invariant = { λ t. ArePacked t.procs t.words.items };
}

impl Tables {
    ghost use Rattle.page_tables.specs.PageTables.{AreEntries, HasPage, IsEntry, IsMapped, pte_in, look_of};

    /// The tables of so many processes (any number; 16 at most in a configuration), in which no page
    /// has an entry. No other call allocates.
    ///
    /// # Errors
    /// `NoMemory` if out of memory.
    pub fn new(alloc: Global, procs: u32) -> Result<Tables, NoMemory>
        ensures procs { IfOk result (λ t. t.procs ≡ procs) }
        ensures empty { IfOk result (λ t. (p v : ℕ) → pte_in t p v ≡ None) }
    {
        Ok(Tables {
            procs,
            words: vec![in alloc; ABSENT; procs as usize * PRIVATE_PAGES as usize]?,
        })
    }

    /// What the tables have at a page of a process (any numbers).
    pub fn look(&self, p: Proc, vpn: u32) -> Look
        ensures value { result ≡ look_of self.now p.0 vpn }
        ensures entries { AreEntries self.now }
    {
        match self.word(p, vpn) {
            Some(word) => Look::Entry(entry_by(word)),
            None => Look::Absent,
        }
    }

    /// The word of the page's entry; none exactly if the page has no entry.
    pub fn word(&self, p: Proc, vpn: u32) -> Option<u32>
        ensures value { result ≡ option_map word_of (pte_in self.now p.0 vpn) }
        ensures entries { AreEntries self.now }
    {
        let words = self.words.as_slice();
        match page_place(p, vpn) {
            Some(place) => word_at(words, place),
            None => None,
        }
    }

    /// Changes the entry of a mapped page.
    pub fn set(&mut self, p: Proc, vpn: u32, pte: Pte)
        requires mapped { IsMapped self.old p.0 vpn }
        requires entry { IsEntry pte }
        ensures changed { (q w : ℕ) → pte_in self.new q w ≡ changed_at (pte_in self.old) p.0 vpn (Some pte) q w }
        ensures procs { self.new.procs ≡ self.old.procs }
    {
        let index = page_place(p, vpn).unwrap();
        self.words[index] = to_word(pte);
    }

    /// Gives a page of one of the processes its entry.
    pub fn map(&mut self, p: Proc, vpn: u32, pte: Pte)
        requires page { HasPage self.old p.0 vpn }
        requires absent { pte_in self.old p.0 vpn ≡ None }
        requires entry { IsEntry pte }
        ensures changed { (q w : ℕ) → pte_in self.new q w ≡ changed_at (pte_in self.old) p.0 vpn (Some pte) q w }
        ensures procs { self.new.procs ≡ self.old.procs }
    {
        let place = page_place(p, vpn).unwrap();
        self.words[place] = to_word(pte);
    }

    /// Takes the entry of a mapped page away.
    pub fn unmap(&mut self, p: Proc, vpn: u32)
        requires { IsMapped self.old p.0 vpn }
        ensures changed { (q w : ℕ) → pte_in self.new q w ≡ changed_at (pte_in self.old) p.0 vpn None q w }
        ensures procs { self.new.procs ≡ self.old.procs }
    {
        let place = page_place(p, vpn).unwrap();
        self.words[place] = ABSENT;
    }
}
