ghost use Rattle.std.specs.Prelude.{◌≡◌, true};

use crate::state::State;
use crate::transfers::end_transfer;
use disk_trait::Block;
use frame_changes::{end_read_free, fail_read};
use frame_store::{Carried, Lift};
use vm_journal::{Entry, What};
use vm_types::Seat;

impl<B: Block> State<B> {
    ghost use Rattle.vm_state.specs.History.{added, entry_by};
    ghost use Rattle.vm_state.specs.Landings.{MayEnd, MayEndRead, ended_as};
    ghost use Rattle.vm_journal.specs.declared.entry.Role.{Role};
    ghost use Rattle.vm_types.specs.declared.names.Page.{Page};

    /// A read fails, whose block failed; its count of failures was `before` and is `after`.
    pub(crate) fn in_fail_counted(&mut self, seat: Seat, lift: Lift<B>, before: u64, after: u64)
        requires { MayEnd B.seen B.tells self.old seat lift true (Carried.Bad before after) }
        ensures { self.new ≡ added self.old (entry_by seat (ended_as true lift.frame lift.start (Carried.Bad before after))) }
    {
        let f = lift.frame();
        let k = lift.start();
        self.failed = Some(lift.id());
        self.store.land(lift);
        fail_read(self.store.frames_mut(), f);
        let role = &mut self.roles[f.0 as usize];
        end_transfer(role, &mut self.busy[seat.0 as usize], &mut self.in_flight);
        let what = What::InFail {
            f,
            k,
            c: before,
            d: after,
        };
        self.journal.push(Entry { seat, what });
    }

    /// A read for a neighbour lands well.
    pub(crate) fn in_ok_near(&mut self, seat: Seat, lift: Lift<B>)
        requires { (page : Page) × MayEndRead B.seen B.tells self.old seat lift (Role.Near page) }
        ensures { self.new ≡ added self.old (entry_by seat (ended_as true lift.frame lift.start Carried.Good)) }
    {
        let f = lift.frame();
        let k = lift.start();
        self.store.land(lift);
        end_read_free(self.store.frames_mut(), f);
        let role = &mut self.roles[f.0 as usize];
        end_transfer(role, &mut self.busy[seat.0 as usize], &mut self.in_flight);
        let what = What::InOk { f, k };
        self.journal.push(Entry { seat, what });
    }
}
