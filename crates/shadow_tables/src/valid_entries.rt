ghost use Rattle.std.specs.Prelude.{◌≡◌, ◌^◌, ◌<◌, ◌∷◌, [], None, Some, IfOk, OnErr, OnOk, filter, length, not, replicate, slice_index_or, slice_set};
ghost use Rattle.vm_types.specs.PagePlaces.{item_at, page_place};
ghost use Rattle.pager_model.specs.Changes.{without_entry};
ghost use Rattle.pager_model.specs.Lookups.{entries_at, entry_of, is_entry};
ghost use Rattle.shadow_tables.specs.Listed.{entries_of};

use crate::changes::{Change, Changes};
use crate::rows::Rows;
use crate::valid_entry::ValidEntry;
use std::alloc::Global;
use std::marker::Model;
use vm_types::{NoMemory, Pfn, Proc, page_place};

/// How many runs of 64 pages a process may map.
const RUNS: usize = 80;

/// The entries of one frame, the newest first. Contracts see the list.
#[derive(Debug, Drop)]
struct Sharers {
    entries: Vec<ValidEntry>,
}

impl Model for Sharers {
    ghost use Rattle.std.specs.Prelude.{List};
    ghost use Rattle.pager_model.specs.Pager.{Valid};

    ghost Value = { List Valid };

    ghost view = { λ s. s.entries.items };
}

impl Sharers {
    /// The entries.
    fn list(&self) -> &[ValidEntry]
        ensures { result.now ≡ self.now }
    {
        &self.entries
    }

    /// An entry more.
    fn put(&mut self, entry: ValidEntry) -> Result<(), NoMemory>
        ensures ok { OnOk result (self.new ≡ entry ∷ self.old) }
        ensures err { OnErr result (self.new ≡ self.old) }
    {
        self.entries.insert(0, entry)?;
        Ok(())
    }

    /// Takes the entries of a process for a page away.
    fn remove(&mut self, p: Proc, vpn: u32)
        ensures { self.new ≡ filter (λ e. not (is_entry p.0 vpn e)) self.old }
    {
        self.entries.retain(|entry| !entry.is_of(p, vpn));
    }
}

/// The valid page table entries, one at most of a process for a page. Contracts see a list, the newest first.
#[derive(Drop)]
pub struct ValidEntries {
    /// By the place of a page, the frame of its entry.
    frames: Rows<u32>,
    /// By frame, its entries.
    sharers: Vec<Sharers>,
    changes: Changes,
}

impl Model for ValidEntries {
    ghost use Rattle.std.specs.Prelude.{List};
    ghost use Rattle.pager_model.specs.Pager.{Valid};
    ghost use Rattle.shadow_tables.specs.Listed.{AreEntries, valid_after};

    ghost Value = { List Valid };

    ghost view = { λ v. valid_after v.changes.list };

    ghost invariant = { λ v. AreEntries (valid_after v.changes.list) v.frames v.sharers.items };
}

/// The place of a page, if the table has it.
fn place_in(frames: &Rows<u32>, p: Proc, vpn: u32) -> Result<usize, NoMemory>
    ensures place { IfOk result (λ place. page_place p.0 vpn ≡ Some place) }
    ensures within { IfOk result (λ place. place < length frames.now) }
{
    match page_place(p, vpn) {
        Some(place) if place < frames.len() => Ok(place),
        _ => Err(NoMemory),
    }
}

/// The place of a page, if the table has it and nothing is there.
fn free_place(frames: &Rows<u32>, p: Proc, vpn: u32) -> Result<usize, NoMemory>
    ensures place { IfOk result (λ place. page_place p.0 vpn ≡ Some place) }
    ensures within { IfOk result (λ place. place < length frames.now) }
    ensures free { IfOk result (λ place. slice_index_or frames.now place None ≡ None) }
{
    let place = place_in(frames, p, vpn)?;
    match frames.at(place) {
        Some(_) => Err(NoMemory),
        None => Ok(place),
    }
}

/// The frame of the entry of a process for a page.
fn frame_at(frames: &Rows<u32>, p: Proc, vpn: u32) -> Option<u32>
    ensures { result ≡ item_at frames.now p.0 vpn }
{
    frames.at(page_place(p, vpn)?)
}

/// The entries of a frame (any number).
#[tactic(auto, using(crate::proofs::Entries::list_there, crate::proofs::Entries::none_there))]
fn entries_in(sharers: &[Sharers], f: Pfn) -> &[ValidEntry]
    ensures { result.now ≡ slice_index_or sharers.now f.0 [] }
{
    match sharers.get(f.0 as usize) {
        Some(sharers) => sharers.list(),
        None => &[],
    }
}

/// A frame has an entry more.
fn put_in(sharers: &mut Vec<Sharers>, f: usize, entry: ValidEntry) -> Result<(), NoMemory>
    ensures within { OnOk result (f < length sharers.old.items) }
    ensures put { OnOk result (sharers.new.items ≡ slice_set sharers.old.items f (entry ∷ slice_index_or sharers.old.items f [])) }
    ensures err { OnErr result (sharers.new.items ≡ sharers.old.items) }
{
    if sharers.len() <= f {
        return Err(NoMemory);
    }
    sharers[f].put(entry)
}

/// Takes the entries of a process for a page away from those of a frame.
fn remove_in(sharers: &mut Vec<Sharers>, f: usize, p: Proc, vpn: u32) -> Result<(), NoMemory>
    ensures within { OnOk result (f < length sharers.old.items) }
    ensures removed { OnOk result (sharers.new.items ≡ slice_set sharers.old.items f (filter (λ e. not (is_entry p.0 vpn e)) (slice_index_or sharers.old.items f []))) }
    ensures err { OnErr result (sharers.new.items ≡ sharers.old.items) }
{
    if sharers.len() <= f {
        return Err(NoMemory);
    }
    sharers[f].remove(p, vpn);
    Ok(())
}

/// No entries of so many frames.
fn no_sharers(alloc: Global, frames: usize) -> Result<Vec<Sharers>, NoMemory>
    ensures { IfOk result (λ v. v.items ≡ replicate frames []) }
{
    let mut sharers = Vec::new(alloc);
    for _ in 0..frames {
        sharers.push(Sharers {
            entries: Vec::new(alloc),
        })?;
    }
    Ok(sharers)
}

impl ValidEntries {
    /// No entry of so many processes (less than 2^32) is valid, for none of so many frames.
    ///
    /// # Errors
    /// `NoMemory` if out of memory.
    pub fn new(alloc: Global, procs: usize, frames: usize) -> Result<ValidEntries, NoMemory>
        requires { procs < 2 ^ 32 }
        ensures { IfOk result (λ v. v ≡ []) }
    {
        Ok(ValidEntries {
            frames: Rows::new(alloc, procs * RUNS)?,
            sharers: no_sharers(alloc, frames)?,
            changes: Changes::new(),
        })
    }

    /// The entry of a process for a page.
    pub fn at(&self, p: Proc, vpn: u32) -> Option<ValidEntry>
        ensures { result ≡ entry_of self.now p.0 vpn }
    {
        match frame_at(&self.frames, p, vpn) {
            Some(f) => Some(ValidEntry::new(p, vpn, Pfn(f))),
            None => None,
        }
    }

    /// How many entries a process has for a page.
    pub fn count(&self, p: Proc, vpn: u32) -> usize
        ensures { result ≡ entries_at self.now p.0 vpn }
    {
        match frame_at(&self.frames, p, vpn) {
            Some(_) => 1,
            None => 0,
        }
    }

    /// The entries for a frame (any number).
    pub fn of_frame(&self, f: Pfn) -> &[ValidEntry]
        ensures { result.now ≡ entries_of self.now f.0 }
    {
        entries_in(&self.sharers, f)
    }

    /// The entry of a process for a page becomes valid.
    ///
    /// # Errors
    /// `NoMemory` if out of memory, if there is one already, or if there is no such page or frame; nothing is changed
    /// then.
    pub fn put(&mut self, p: Proc, vpn: u32, f: Pfn) -> Result<(), NoMemory>
        ensures { OnOk result (self.new ≡ record { proc = p.0; vpn = vpn; frame = f.0 } ∷ self.old) }
    {
        let place = free_place(&self.frames, p, vpn)?;
        put_in(&mut self.sharers, f.0 as usize, ValidEntry::new(p, vpn, f))?;
        self.frames.set(place, Some(f.0));
        self.changes = self.changes.then(&Change::Entered(p, vpn, f));
        Ok(())
    }

    /// The entry of a process for a page, if there is one, is valid no more.
    ///
    /// # Errors
    /// `NoMemory` if there is no such page; nothing is changed then.
    pub fn remove(&mut self, p: Proc, vpn: u32) -> Result<(), NoMemory>
        ensures { OnOk result (self.new ≡ without_entry self.old p.0 vpn) }
    {
        let place = place_in(&self.frames, p, vpn)?;
        match self.frames.at(place) {
            Some(f) => {
                remove_in(&mut self.sharers, f as usize, p, vpn)?;
                self.frames.set(place, None);
                self.changes = self.changes.then(&Change::Left(p, vpn));
                Ok(())
            }
            None => Ok(()),
        }
    }
}
