ghost use Rattle.std.specs.Prelude.{◌≡◌, false};

use crate::state::State;
use crate::transfers::end_transfer;
use disk_trait::Block;
use frame_changes::end_write;
use frame_store::{Carried, Lift};
use state_pages::lie_unless;
use vm_journal::{Entry, What};
use vm_types::Seat;

impl<B: Block> State<B> {
    ghost use Rattle.vm_state.specs.History.{MayAdd, added, entry_by};
    ghost use Rattle.vm_state.specs.Landings.{HasFailed, MayEnd, ended_as, landing_of};
    ghost use Rattle.lift_carriers.specs.LiftsFit.{LiftFits};

    /// A write has gone well.
    pub fn out_ok(&mut self, seat: Seat, lift: Lift<B>)
        requires may { MayAdd self.old (entry_by seat (landing_of lift)) }
        requires fits { LiftFits B.seen B.tells self.old.config self.old.past lift }
        requires write { lift.is_read ≡ false }
        requires good { lift.result ≡ Carried.Good }
        requires pool { lift.pool ≡ self.old.pool }
        ensures { self.new ≡ added self.old (entry_by seat (landing_of lift)) }
    {
        self.out_ok_well(seat, lift)
    }

    /// A write has failed.
    pub fn out_fail(&mut self, seat: Seat, lift: Lift<B>)
        requires may { MayAdd self.old (entry_by seat (landing_of lift)) }
        requires fits { LiftFits B.seen B.tells self.old.config self.old.past lift }
        requires write { lift.is_read ≡ false }
        requires bad { HasFailed lift.result }
        requires pool { lift.pool ≡ self.old.pool }
        ensures { self.new ≡ added self.old (entry_by seat (landing_of lift)) }
    {
        let Carried::Bad { before, after } = lift.result() else {
            unreachable!();
        };
        self.out_fail_counted(seat, lift, before, after)
    }

    /// A write has landed well. The page lies in the block, unless it was modified meanwhile.
    fn out_ok_well(&mut self, seat: Seat, lift: Lift<B>)
        requires { MayEnd B.seen B.tells self.old seat lift false Carried.Good }
        ensures { self.new ≡ added self.old (entry_by seat (ended_as false lift.frame lift.start Carried.Good)) }
    {
        let f = lift.frame();
        let k = lift.start();
        let block = lift.id();
        self.store.land(lift);
        let row = self.store.frames().row(f);
        end_write(self.store.frames_mut(), f, false);
        let page = row.page.unwrap();
        lie_unless(&mut self.pages, &mut self.swaps, row.modify, page, block);
        let role = &mut self.roles[f.0 as usize];
        end_transfer(role, &mut self.busy[seat.0 as usize], &mut self.in_flight);
        let what = What::OutOk { f, k };
        self.journal.push(Entry { seat, what });
    }

    /// A write has failed; its block's count of failures was `before` and is `after`.
    fn out_fail_counted(&mut self, seat: Seat, lift: Lift<B>, before: u64, after: u64)
        requires { MayEnd B.seen B.tells self.old seat lift false (Carried.Bad before after) }
        ensures { self.new ≡ added self.old (entry_by seat (ended_as false lift.frame lift.start (Carried.Bad before after))) }
    {
        let f = lift.frame();
        let k = lift.start();
        self.store.land(lift);
        end_write(self.store.frames_mut(), f, true);
        let role = &mut self.roles[f.0 as usize];
        end_transfer(role, &mut self.busy[seat.0 as usize], &mut self.in_flight);
        let what = What::OutFail {
            f,
            k,
            c: before,
            d: after,
        };
        self.journal.push(Entry { seat, what });
    }
}
