ghost use Rattle.std.specs.Prelude.{◌≡◌, true};

use crate::state::State;
use disk_trait::Block;
use frame_store::{Carried, Lift};
use vm_journal::Role;
use vm_types::Seat;

impl<B: Block> State<B> {
    ghost use Rattle.vm_state.specs.History.{MayAdd, added, entry_by};
    ghost use Rattle.vm_state.specs.Landings.{HasFailed, landing_of};
    ghost use Rattle.lift_carriers.specs.LiftsFit.{LiftFits};

    /// A read lands well: the page is in its frame, and valid for the process that it was read for, if
    /// it was for one.
    pub fn in_ok(&mut self, seat: Seat, lift: Lift<B>)
        requires may { MayAdd self.old (entry_by seat (landing_of lift)) }
        requires fits { LiftFits B.seen B.tells self.old.config self.old.past lift }
        requires read { lift.is_read ≡ true }
        requires good { lift.result ≡ Carried.Good }
        requires pool { lift.pool ≡ self.old.pool }
        ensures { self.new ≡ added self.old (entry_by seat (landing_of lift)) }
    {
        let role = self.roles[lift.frame().0 as usize].unwrap();
        match role {
            Role::Fault(q, a) => self.in_ok_fault(seat, lift, q, a),
            Role::Near(_) => self.in_ok_near(seat, lift),
            Role::Come(q, a) => self.in_ok_come(seat, lift, q, a),
        }
    }

    /// A read fails: its block failed. The frame keeps the page until it is reused.
    pub fn in_fail(&mut self, seat: Seat, lift: Lift<B>)
        requires may { MayAdd self.old (entry_by seat (landing_of lift)) }
        requires fits { LiftFits B.seen B.tells self.old.config self.old.past lift }
        requires read { lift.is_read ≡ true }
        requires bad { HasFailed lift.result }
        requires pool { lift.pool ≡ self.old.pool }
        ensures { self.new ≡ added self.old (entry_by seat (landing_of lift)) }
    {
        let Carried::Bad { before, after } = lift.result() else {
            unreachable!();
        };
        self.in_fail_counted(seat, lift, before, after)
    }
}
