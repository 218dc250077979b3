ghost use Rattle.std.specs.Prelude.{◌≡◌, ◌+◌, ◌-◌, ◌^◌, ◌<◌, None, IfOk, replicate, slice_set};

use std::alloc::Global;
use std::marker::Model;
use vm_types::{NoMemory, Pfn};

/// The pages of all sections, numbered through the sections in order of declaration: for each the
/// frame that holds it, if one does, and its share count, the number of valid process entries that
/// name it. Source: Kenah and Bate, "VAX/VMS Internals and Data Structures", memory structures.
#[derive(Debug, Drop)]
pub struct Globals {
    holders: Vec<Option<Pfn>>,
    shares: Vec<u32>,
}

impl Model for Globals {
    ghost use Rattle.std.specs.Prelude.{◌≡◌, length};
    ghost use Rattle.global_pages.specs.GlobalPages.{GlobalPages};

    ghost Value = { GlobalPages };

    ghost view = { λ g. record { frames = g.holders.items; counts = g.shares.items } };

    ghost invariant = { λ g. length g.shares.items ≡ length g.holders.items };
}

impl Globals {
    ghost use Rattle.global_pages.specs.GlobalPages.{IsGlobalPage, count_of, frame_of};

    /// So many pages (any number; 16,384 at most in a configuration), each in no frame and shared by
    /// nobody. No other call allocates.
    ///
    /// # Errors
    /// `NoMemory` if out of memory.
    pub fn new(alloc: Global, pages: u32) -> Result<Globals, NoMemory>
        ensures { IfOk result (λ g. g ≡ record { frames = replicate pages None; counts = replicate pages 0 }) }
    {
        Ok(Globals {
            holders: vec![in alloc; None; pages as usize]?,
            shares: vec![in alloc; 0; pages as usize]?,
        })
    }

    /// The frame that holds the page.
    pub fn frame(&self, g: u32) -> Option<Pfn>
        requires { IsGlobalPage self.now g }
        ensures { result ≡ frame_of self.now g }
    {
        self.holders[g as usize]
    }

    /// Says which frame holds the page.
    pub fn set_frame(&mut self, g: u32, f: Option<Pfn>)
        requires { IsGlobalPage self.old g }
        ensures { self.new ≡ record self.old { frames = slice_set self.old.frames g f } }
    {
        self.holders[g as usize] = f;
    }

    /// One more valid entry names the page.
    pub fn share(&mut self, g: u32)
        requires page { IsGlobalPage self.old g }
        requires few { count_of self.old g < 2 ^ 32 - 1 }
        ensures { self.new ≡ record self.old { counts = slice_set self.old.counts g (count_of self.old g + 1) } }
    {
        self.shares[g as usize] += 1;
    }

    /// One valid entry less names the page.
    pub fn unshare(&mut self, g: u32)
        requires page { IsGlobalPage self.old g }
        requires some { 0 < count_of self.old g }
        ensures { self.new ≡ record self.old { counts = slice_set self.old.counts g (count_of self.old g - 1) } }
    {
        self.shares[g as usize] -= 1;
    }

    /// How many valid entries name the page.
    pub fn count(&self, g: u32) -> u32
        requires { IsGlobalPage self.now g }
        ensures { result ≡ count_of self.now g }
    {
        self.shares[g as usize]
    }
}
