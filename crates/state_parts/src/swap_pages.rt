ghost use Rattle.std.specs.Prelude.{◌≡◌, ℕ, None, IfOk};
ghost use Rattle.vm_types.specs.declared.limits.TheConstants.{MOST_EXTENT};
ghost use Rattle.vm_types.specs.PagePlaces.{changed_at};

use page_rows::PageRows;
use std::alloc::Global;
use std::marker::Model;
use vm_types::{MOST_EXTENT, NoMemory, Proc};

/// The slots of the longest working set list.
const SLOTS: usize = MOST_EXTENT as usize;

/// The runs of 64 slots of a process.
const RUNS: usize = 16;

/// The page number that lies in each swap block, by process and slot (0 to 1023).
#[derive(Debug, Drop)]
pub struct SwapPages {
    procs: usize,
    pages: PageRows<u32>,
}

impl Model for SwapPages {
    ghost use Rattle.std.specs.Prelude.{◌≡◌, ◌*◌, length};
    ghost use Rattle.vm_types.specs.declared.limits.TheConstants.{MOST_EXTENT};
    ghost use Rattle.state_parts.specs.SwapTable.{SwapTable};

    ghost Value = { SwapTable };

    ghost view = { λ t. record { procs = t.procs; pages = t.pages } };

    ghost invariant = { λ t. length t.pages ≡ t.procs * MOST_EXTENT };
}

impl SwapPages {
    ghost use Rattle.state_parts.specs.SwapTable.{HasSlot, swapped_at};

    /// The table of so many processes (any number), with nothing in any block. No other call
    /// allocates.
    ///
    /// # Errors
    /// `NoMemory` if out of memory.
    pub fn new(alloc: Global, procs: u32) -> Result<SwapPages, NoMemory>
        ensures procs { IfOk result (λ t. t.procs ≡ procs) }
        ensures none { IfOk result (λ t. (p n : ℕ) → swapped_at t p n ≡ None) }
    {
        let procs = procs as usize;
        Ok(SwapPages {
            procs,
            pages: PageRows::new(alloc, procs * RUNS)?,
        })
    }

    /// The page number that lies in the swap block of a process's slot (any numbers), if one does.
    pub fn at(&self, p: Proc, n: u32) -> Option<u32>
        ensures { result ≡ swapped_at self.now p.0 n }
    {
        let slot = n as usize;
        if slot >= SLOTS {
            return None;
        }
        self.pages.get(p.0 as usize * SLOTS + slot)
    }

    /// Sets the page number (any) that lies in the swap block of a slot of one of the processes, or
    /// none.
    pub fn set(&mut self, p: Proc, n: u32, page: Option<u32>)
        requires { HasSlot self.old p.0 n }
        ensures changed { (q m : ℕ) → swapped_at self.new q m ≡ changed_at (swapped_at self.old) p.0 n page q m }
        ensures procs { self.new.procs ≡ self.old.procs }
    {
        self.pages.set(p.0 as usize * SLOTS + n as usize, page);
    }
}
