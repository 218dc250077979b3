ghost use Rattle.std.specs.Prelude.{◌≡◌};

use crate::state::State;
use disk_trait::Block;
use frame_changes::enter;
use state_pages::{enter_ring, frame_slot, make_valid, marked_back, share};
use vm_journal::{Entry, What};
use vm_types::{Addr, FrameState, PAGE_BYTES, Pfn, Proc, Seat};

impl<B: Block> State<B> {
    ghost use Rattle.vm_journal.specs.declared.entry.What.{What};
    ghost use Rattle.vm_state.specs.History.{MayAdd, added, entry_by};

    /// A page in a frame becomes valid again for a process; `from` is the state that the frame was in.
    #[inline(always)]
    pub fn back(&mut self, seat: Seat, p: Proc, a: Addr, f: Pfn, from: FrameState)
        requires { MayAdd self.old (entry_by seat (What.Back p a f from)) }
        ensures { self.new ≡ added self.old (entry_by seat (What.Back p a f from)) }
    {
        let vpn = a.0 / PAGE_BYTES;
        let kept = self.store.frames().row(f);
        let page = kept.page.unwrap();
        let row = &mut self.processes[p.0 as usize];
        let modify = marked_back(row.status, kept.modify);
        let slot = enter_ring(row, &mut self.pages, &mut self.swaps, p, vpn);
        let held = frame_slot(page, slot);
        enter(self.store.frames_mut(), f, page, held, modify);
        make_valid(&mut self.tables, p, vpn, f);
        share(&mut self.globals, &self.firsts, page);
        self.journal.push(Entry {
            seat,
            what: What::Back { p, a, f, from },
        });
    }
}
