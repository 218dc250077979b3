ghost use Rattle.std.specs.Prelude.{◌≡◌, ◌<◌, length};
ghost use Rattle.std.specs.Option.{option_map};
ghost use Rattle.vm_state.specs.History.{pager};
ghost use Rattle.vm_state.specs.ProcessReadings.{IsAfter, pending_in, slot_in};
ghost use Rattle.state_pages.specs.Shown.{frame_number};

use crate::state::State;
use disk_trait::Block;
use state_pages::{Slot, frame_in, held_in, pending_by};
use vm_types::{Pfn, Proc};

/// No reader allocates.
impl<B: Block> State<B> {
    /// The limit that the pending adjustment of a process of the configuration gives, and its faults
    /// since the last one; none exactly if none is pending.
    pub fn pending(&self, p: Proc) -> Option<(u32, u64)>
        requires { p.0 < length self.now.config.procs }
        ensures { result ≡ pending_in self.now.config (pager self.now) p.0 }
    {
        let row = &self.processes[p.0 as usize];
        let spec = &self.config.procs.items()[p.0 as usize];
        pending_by(&self.config.params, spec, row, self.free_len())
    }

    /// The page in a slot (any number) of the working set of a process of the configuration, with the
    /// frame of its valid entry; none if the slot is empty, or isn't there.
    #[inline(always)]
    pub fn slot(&self, p: Proc, n: u32) -> Option<Slot>
        requires { p.0 < length self.now.config.procs }
        ensures { result ≡ slot_in (pager self.now) p.0 n }
    {
        let (vpn, locked, pinned) = held_in(&self.processes[p.0 as usize].ring, n)?;
        let frame = frame_in(self.tables.look(p, vpn))?;
        Some(Slot {
            vpn,
            frame,
            locked,
            pinned,
        })
    }

    /// The slot on which the hand of a process of the configuration stands.
    pub fn hand(&self, p: Proc) -> u32
        requires { p.0 < length self.now.config.procs }
        ensures { result ≡ ((pager self.now).ring p.0).hand }
    {
        self.processes[p.0 as usize].ring.hand()
    }

    /// The frame after a frame (any number) on its list; none if it is the last there, or on no list.
    pub fn next(&self, f: Pfn) -> Option<Pfn>
        ensures { IsAfter (pager self.now) f.0 (option_map frame_number result) }
    {
        self.store.frames().list_next(f)
    }
}
