ghost use Rattle.std.specs.Prelude.{◌≡◌, true};

use crate::state::State;
use crate::transfers::end_transfer;
use disk_trait::Block;
use frame_changes::end_read;
use frame_store::{Carried, Lift};
use state_pages::{come_home, first_read, frame_slot, make_valid, share};
use state_parts::take_slot;
use vm_journal::{Entry, Role, What};
use vm_types::{Addr, PAGE_BYTES, Page, Proc, Seat};

impl<B: Block> State<B> {
    ghost use Rattle.vm_journal.specs.declared.entry.Role.{Role};
    ghost use Rattle.vm_state.specs.History.{added, entry_by};
    ghost use Rattle.vm_state.specs.Landings.{MayEndRead, ended_as};

    /// A read for a faulting page lands well: the page is valid for the process, in the slot that its
    /// ring offers.
    pub(crate) fn in_ok_fault(&mut self, seat: Seat, lift: Lift<B>, q: Proc, a: Addr)
        requires { MayEndRead B.seen B.tells self.old seat lift (Role.Fault q a) }
        ensures { self.new ≡ added self.old (entry_by seat (ended_as true lift.frame lift.start Carried.Good)) }
    {
        let f = lift.frame();
        let k = lift.start();
        let block = lift.id();
        self.store.land(lift);
        let vpn = a.0 / PAGE_BYTES;
        let kept = self.store.frames().row(f);
        let page = kept.page.unwrap();
        let row = &mut self.processes[q.0 as usize];
        let slot = take_slot(&mut row.ring, row.limit, vpn);
        let held = frame_slot(page, slot);
        let modify = first_read(page, block);
        end_read(self.store.frames_mut(), f, page, held, modify);
        make_valid(&mut self.tables, q, vpn, f);
        share(&mut self.globals, &self.firsts, page);
        let role = &mut self.roles[f.0 as usize];
        end_transfer(role, &mut self.busy[seat.0 as usize], &mut self.in_flight);
        let what = What::InOk { f, k };
        self.journal.push(Entry { seat, what });
    }

    /// A read for a process that comes back lands well: the page is valid for the process, in the slot
    /// whose swap block it came from.
    pub(crate) fn in_ok_come(&mut self, seat: Seat, lift: Lift<B>, q: Proc, a: Addr)
        requires { MayEndRead B.seen B.tells self.old seat lift (Role.Come q a) }
        ensures { self.new ≡ added self.old (entry_by seat (ended_as true lift.frame lift.start Carried.Good)) }
    {
        let f = lift.frame();
        let k = lift.start();
        self.store.land(lift);
        let vpn = a.0 / PAGE_BYTES;
        let row = &mut self.processes[q.0 as usize];
        let slot = come_home(row, &mut self.pages, &mut self.swaps, q, vpn);
        let page = Page::Private(q, vpn);
        end_read(self.store.frames_mut(), f, page, slot, true);
        make_valid(&mut self.tables, q, vpn, f);
        let role = &mut self.roles[f.0 as usize];
        end_transfer(role, &mut self.busy[seat.0 as usize], &mut self.in_flight);
        let what = What::InOk { f, k };
        self.journal.push(Entry { seat, what });
    }
}
