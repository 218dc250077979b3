ghost use Rattle.std.specs.Prelude.{◌≡◌};

use crate::state::State;
use disk_trait::Block;
use frame_changes::enter;
use state_pages::{entry_in, frame_slot, hold, make_valid, mapped_page, share};
use state_parts::{ChargedPage, take_slot};
use vm_journal::{Entry, What};
use vm_types::{Addr, PAGE_BYTES, Pfn, Proc, Seat};

/// What is kept of a page that has just been charged.
const FRESH: ChargedPage = ChargedPage {
    touched: false,
    lies: None,
    assigned: None,
};

impl<B: Block> State<B> {
    ghost use Rattle.vm_journal.specs.declared.entry.What.{What};
    ghost use Rattle.vm_state.specs.History.{MayAdd, added, entry_by};

    /// Gives a demand zero page of the seat's process its first frame.
    pub fn zero(&mut self, seat: Seat, a: Addr, f: Pfn)
        requires { MayAdd self.old (entry_by seat (What.Zero a f)) }
        ensures { self.new ≡ added self.old (entry_by seat (What.Zero a f)) }
    {
        let p = Proc(seat.0);
        let vpn = a.0 / PAGE_BYTES;
        let page = mapped_page(&self.config, &self.sections, p, vpn).unwrap();
        let row = &mut self.processes[seat.0 as usize];
        let slot = take_slot(&mut row.ring, row.limit, vpn);
        row.faults += 1;
        let held = frame_slot(page, slot);
        enter(self.store.frames_mut(), f, page, held, true);
        self.store.zero(f);
        make_valid(&mut self.tables, p, vpn, f);
        hold(&mut self.globals, &self.firsts, f, page);
        share(&mut self.globals, &self.firsts, page);
        self.pages.set(page, Some(FRESH));
        self.file.charge().unwrap();
        self.journal.push(Entry {
            seat,
            what: What::Zero { a, f },
        });
    }

    /// The seat's process runs into the read that entry `k` began.
    pub fn collide(&mut self, seat: Seat, a: Addr, f: Pfn, k: u64)
        requires { MayAdd self.old (entry_by seat (What.Collide a f k)) }
        ensures { self.new ≡ added self.old (entry_by seat (What.Collide a f k)) }
    {
        let row = &mut self.processes[seat.0 as usize];
        row.collided = Some(k);
        self.journal.push(Entry {
            seat,
            what: What::Collide { a, f, k },
        });
    }
}
