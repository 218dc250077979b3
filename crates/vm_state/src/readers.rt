ghost use Rattle.std.specs.Prelude.{◌≡◌, ◌≢◌, ◌<◌, ◌+◌, ℕ, true, false, length, reverse, slice_get};
ghost use Rattle.pager_model.specs.Flights.{is_busy, open_flights};
ghost use Rattle.state_fits.specs.File.{owner_in};
ghost use Rattle.state_fits.specs.Seats.{start_on};
ghost use Rattle.pager_model.specs.Spoken.{spoken};
ghost use Rattle.state_fits.specs.Spoken.{spoken_by};
ghost use Rattle.vm_types.specs.Ring.{choose, filled, unpinned};
ghost use Rattle.vm_state.specs.History.{pager};
ghost use Rattle.std.specs.Option.{option_map};
ghost use Rattle.vm_state.specs.Readings.{listed, row_at};
ghost use Rattle.state_pages.specs.Shown.{frame_number};
ghost use Rattle.run_record.specs.Tallies.{tallies_of};

use crate::state::State;
use disk_trait::Block;
use pfn_database::{ListName, Row};
use state_parts::unpinned;
use vm_journal::Entry;
use vm_types::{Config, Page, Pfn, Proc, ProcStatus, Seat};
use working_set::Choice;

/// No reader allocates.
impl<B: Block> State<B> {
    /// The configuration.
    pub fn config(&self) -> &Config
        ensures { result.now ≡ self.now.config }
    {
        &self.config
    }

    /// The entries, oldest first, if they are kept; else no entries.
    pub fn entries(&self) -> &[Entry]
        ensures { self.now.keeps ≡ true → result.now ≡ reverse self.now.past }
    {
        self.journal.entries()
    }

    /// How many entries there are.
    pub fn entry_count(&self) -> u64
        ensures { result ≡ length self.now.past }
    {
        self.journal.len()
    }

    /// How many entries there are of each kind, in the order of `What`, if the entries aren't kept.
    pub fn kinds(&self) -> [u64; 16]
        ensures { self.now.keeps ≡ false → result ≡ tallies_of (reverse self.now.past) }
    {
        self.journal.kinds()
    }

    /// How many more entries can be made without memory.
    pub fn spare(&self) -> u32
        ensures { result ≡ self.now.spare }
    {
        self.journal.spare()
    }

    /// Whether the state was halted.
    pub fn halted(&self) -> bool
        ensures { result ≡ self.now.halted }
    {
        self.halted
    }

    /// Halts the state.
    pub fn halt(&mut self)
        ensures { self.new ≡ record self.old { halted = true } }
    {
        self.halted = true;
    }

    /// The row of a frame of the configuration.
    pub fn frame(&self, f: Pfn) -> Row
        requires { f.0 < self.now.config.frames }
        ensures { result ≡ row_at self.now f.0 }
    {
        self.store.frames().row(f)
    }

    /// How many frames are free.
    pub fn free_len(&self) -> u32
        ensures { result ≡ length (pager self.now).free }
    {
        self.store.frames().list_len(ListName::Free)
    }

    /// How many frames are on the modified list.
    pub fn modified_len(&self) -> u32
        ensures { result ≡ length (pager self.now).modified }
    {
        self.store.frames().list_len(ListName::Modified)
    }

    /// The first frame of a list; none if the list is empty.
    pub fn head(&self, l: ListName) -> Option<Pfn>
        ensures { option_map frame_number result ≡ slice_get (listed (pager self.now) l) 0 }
    {
        self.store.frames().list_head(l)
    }

    /// The entry that began the open transfer of a frame of the configuration; none if it has none.
    pub fn flight(&self, f: Pfn) -> Option<u64>
        requires { f.0 < self.now.config.frames }
        ensures { result ≡ start_on f.0 (open_flights self.now.past) }
    {
        self.store.flight(f)
    }

    /// The status of a process of the configuration.
    pub fn status(&self, p: Proc) -> ProcStatus
        requires { p.0 < length self.now.config.procs }
        ensures { result ≡ (pager self.now).status p.0 }
    {
        self.processes[p.0 as usize].status
    }

    /// How many pages a process of the configuration has in its working set.
    pub fn count(&self, p: Proc) -> u32
        requires { p.0 < length self.now.config.procs }
        ensures { result ≡ filled ((pager self.now).ring p.0).slots }
    {
        self.processes[p.0 as usize].ring.count()
    }

    /// How many pages of the working set of a process of the configuration aren't pinned. Looks at each
    /// slot once.
    pub fn unpinned(&self, p: Proc) -> u32
        requires { p.0 < length self.now.config.procs }
        ensures { result ≡ unpinned ((pager self.now).ring p.0).slots }
    {
        unpinned(&self.processes[p.0 as usize].ring)
    }

    /// The working set limit of a process of the configuration.
    pub fn limit_of(&self, p: Proc) -> u32
        requires { p.0 < length self.now.config.procs }
        ensures { result ≡ (pager self.now).limit p.0 }
    {
        self.processes[p.0 as usize].limit
    }

    /// The slot that the working set of a process of the configuration offers.
    pub fn choice(&self, p: Proc) -> Choice
        requires { p.0 < length self.now.config.procs }
        ensures { result ≡ choose ((pager self.now).ring p.0) ((pager self.now).limit p.0) }
    {
        let row = &self.processes[p.0 as usize];
        row.ring.choose(row.limit)
    }

    /// The read that the last collision of a process of the configuration named.
    pub fn collided(&self, p: Proc) -> Option<u64>
        requires { p.0 < length self.now.config.procs }
        ensures { result ≡ (pager self.now).collided p.0 }
    {
        self.processes[p.0 as usize].collided
    }

    /// The number of the last spoken entry of a process of the configuration; none if it has none.
    pub fn spoken(&self, p: Proc) -> Option<u64>
        requires { p.0 < length self.now.config.procs }
        ensures { result ≡ (spoken_by p.0 self.now.past).last }
    {
        self.spoken[p.0 as usize].last
    }

    /// How many requests of a process of the configuration were answered.
    pub fn answered(&self, p: Proc) -> u64
        requires { p.0 < length self.now.config.procs }
        ensures { result ≡ (spoken_by p.0 self.now.past).count }
    {
        self.spoken[p.0 as usize].count
    }

    /// How many requests were answered. No entry is looked at.
    pub fn all_answered(&self) -> u64
        ensures { result ≡ spoken self.now.past }
    {
        self.journal.answers()
    }

    /// Whether a seat has an open transfer.
    pub fn busy(&self, seat: Seat) -> bool
        requires { seat.0 < length self.now.config.procs + 2 }
        ensures { result ≡ is_busy seat.0 (open_flights self.now.past) }
    {
        self.busy[seat.0 as usize] > 0
    }

    /// How many blocks of the page file are charged.
    pub fn charged(&self) -> u32
        ensures { result ≡ length (pager self.now).charged }
    {
        self.file.charged()
    }

    /// How many blocks of the page file are assigned.
    pub fn assigned(&self) -> u32
        ensures { result ≡ length (pager self.now).assigned }
    {
        self.file.assigned()
    }

    /// The lowest block of the page file that is assigned to no page. More blocks are charged than
    /// assigned.
    pub fn lowest(&self) -> u32
        requires { length (pager self.now).assigned < length (pager self.now).charged }
        ensures exists { result < self.now.config.pagefile }
        ensures free { owner_in (pager self.now).assigned result ≡ None }
        ensures least { (n : ℕ) → n < result → owner_in (pager self.now).assigned n ≢ None }
    {
        self.file.lowest()
    }

    /// The page that a block of the page file is assigned to.
    pub fn owner(&self, block: u32) -> Option<Page>
        ensures { result ≡ owner_in (pager self.now).assigned block }
    {
        self.file.owner(block)
    }
}
