ghost use Rattle.std.specs.Prelude.{◌≡◌};

use crate::state::State;
use disk_trait::Block;
use frame_changes::leave;
use pte_forms::Pte;
use state_pages::{entry_in, left_at, unshare};
use state_parts::give_up;
use vm_journal::{Entry, EvictWhy, What};
use vm_types::{Addr, FrameState, PAGE_BYTES, Pfn, Proc, Seat};

impl<B: Block> State<B> {
    ghost use Rattle.vm_journal.specs.declared.entry.What.{What};
    ghost use Rattle.vm_state.specs.History.{MayAdd, added, entry_by};

    /// A page leaves the working set of a process, and its frame goes to the state `to`.
    #[inline(always)]
    pub fn evict(&mut self, seat: Seat, p: Proc, a: Addr, f: Pfn, why: EvictWhy, to: FrameState)
        requires { MayAdd self.old (entry_by seat (What.Evict p a f why to)) }
        ensures { self.new ≡ added self.old (entry_by seat (What.Evict p a f why to)) }
    {
        let vpn = a.0 / PAGE_BYTES;
        let look = self.tables.look(p, vpn);
        let prot = entry_in(look).unwrap().prot;
        let kept = self.store.frames().row(f);
        let page = kept.page.unwrap();
        let row = &mut self.processes[p.0 as usize];
        let pinned = give_up(&mut row.ring, row.limit, why, vpn);
        leave(self.store.frames_mut(), f, kept, pinned);
        let place = left_at(&self.firsts, f, page);
        self.tables.set(p, vpn, Pte { prot, place });
        unshare(&mut self.globals, &self.firsts, page);
        self.journal.push(Entry {
            seat,
            what: What::Evict { p, a, f, why, to },
        });
    }
}
