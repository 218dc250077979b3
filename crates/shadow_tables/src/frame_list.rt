ghost use Rattle.std.specs.Prelude.{◌≡◌, ◌∷◌, ◌++◌, [], IfOk, OnOk, length, slice_get};
ghost use Rattle.page_lists.specs.Lists.{without};

use page_lists::{ListName, Lists};
use std::alloc::Global;
use std::marker::Model;
use vm_types::NoMemory;

/// A list of frames without repeats, from its head on. Contracts see the list.
#[derive(Debug, Drop)]
pub struct FrameList {
    frames: u32,
    /// The frames are on the free list of these two.
    lists: Lists,
}

impl Model for FrameList {
    ghost use Rattle.std.specs.Prelude.{◌≡◌, List, ℕ};

    ghost Value = { List ℕ };

    ghost view = { λ l. l.lists.free };

    ghost invariant = { λ l. l.lists.frames ≡ l.frames };
}

impl FrameList {
    /// None of so many frames.
    ///
    /// # Errors
    /// `NoMemory` if out of memory.
    pub fn new(alloc: Global, frames: u32) -> Result<FrameList, NoMemory>
        ensures { IfOk result (λ l. l ≡ []) }
    {
        match Lists::new(alloc, frames) {
            Ok(lists) => Ok(FrameList { frames, lists }),
            Err(_) => Err(NoMemory),
        }
    }

    /// How many there are.
    pub fn len(&self) -> usize
        ensures { result ≡ length self.now }
    {
        self.lists.len(ListName::Free) as usize
    }

    /// The head, if there is one.
    pub fn head(&self) -> Option<u32>
        ensures { result ≡ slice_get self.now 0 }
    {
        self.lists.head(ListName::Free)
    }

    /// Puts a frame behind the last.
    ///
    /// # Errors
    /// `NoMemory` if there is no such frame, or if it is on the list; nothing is changed then.
    pub fn push(&mut self, f: u32) -> Result<(), NoMemory>
        ensures { OnOk result (self.new ≡ self.old ++ f ∷ []) }
    {
        if self.frames <= f || self.lists.on(f).is_some() {
            return Err(NoMemory);
        }
        self.lists.push_tail(ListName::Free, f);
        Ok(())
    }

    /// Puts a frame before the first.
    ///
    /// # Errors
    /// `NoMemory` if there is no such frame, or if it is on the list; nothing is changed then.
    pub fn put(&mut self, f: u32) -> Result<(), NoMemory>
        ensures { OnOk result (self.new ≡ f ∷ self.old) }
    {
        if self.frames <= f || self.lists.on(f).is_some() {
            return Err(NoMemory);
        }
        self.lists.push_head(ListName::Free, f);
        Ok(())
    }

    /// Takes a frame away, if it is on the list; the order of the rest stays.
    #[tactic(auto, using(crate::proofs::Dropped::without_none, crate::proofs::Dropped::without_modified))]
    pub fn remove(&mut self, f: u32)
        ensures { self.new ≡ without self.old f }
    {
        if let Some(ListName::Free) = self.lists.on(f) {
            self.lists.remove(ListName::Free, f);
        }
    }
}
