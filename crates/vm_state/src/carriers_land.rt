ghost use Rattle.std.specs.Prelude.{◌≡◌, [], false};

use crate::state::State;
use disk_trait::Block;
use frame_store::{Carried, Lift};
use lift_carriers::{Carrier, Landed, one_more};
use vm_types::Seat;

impl<B: Block> State<B> {
    ghost use Rattle.frame_store.specs.declared.lift.Carried.{Carried};
    ghost use Rattle.pager_model.specs.Flights.{awaits_reuse};
    ghost use Rattle.lift_carriers.specs.Counted.{counted, lift_failed};
    ghost use Rattle.vm_state.specs.LiftsLand.{CarrierMayLand, HasLanded, MayLand, landed_each};

    /// The lifts of a carrier land, in their order, each failed read followed by the reuse of its frame;
    /// the carrier is empty afterwards. Doesn't allocate.
    pub fn land(&mut self, carrier: &mut Carrier<B>) -> Landed
        requires { CarrierMayLand B.seen B.tells self.old carrier.old }
        ensures state { self.new ≡ landed_each carrier.old.seat carrier.old.lifts self.old }
        ensures calm { awaits_reuse self.new.past ≡ false }
        ensures carrier { carrier.new ≡ record carrier.old { lifts = [] } }
        ensures numbers { result ≡ counted carrier.old.lifts }
    {
        let seat = carrier.seat();
        let mut landed = Landed {
            good: 0,
            bad: 0,
            first_bad: false,
        };
        let count = carrier.len();
        // From here on the next lift is the carrier's last one.
        carrier.turn();
        for n in 0..count {
            let lift = carrier.last();
            let failed = self.land_lift(seat, lift);
            landed = one_more(landed, n == 0, failed);
        }
        landed
    }

    /// One lift lands; says whether it failed.
    #[inline(always)]
    fn land_lift(&mut self, seat: Seat, lift: Lift<B>) -> bool
        requires calm { awaits_reuse self.old.past ≡ false }
        requires may { MayLand B.seen B.tells self.old seat lift }
        ensures landed { HasLanded B.seen B.tells seat lift self.old self.new }
        ensures failed { result ≡ lift_failed lift }
    {
        match lift.result() {
            Carried::Waiting => unreachable!(),
            Carried::Good => {
                self.land_good(seat, lift);
                false
            }
            Carried::Bad { before, after } => {
                self.land_bad(seat, lift, before, after);
                true
            }
        }
    }

    /// One lift lands well.
    #[inline(always)]
    fn land_good(&mut self, seat: Seat, lift: Lift<B>)
        requires calm { awaits_reuse self.old.past ≡ false }
        requires may { MayLand B.seen B.tells self.old seat lift }
        requires good { lift.result ≡ Carried.Good }
        ensures { HasLanded B.seen B.tells seat lift self.old self.new }
    {
        // The proof learns here what the state keeps.
        let _ = &self.config;
        if lift.is_read() {
            return self.in_ok(seat, lift);
        }
        self.out_ok(seat, lift)
    }

    /// One lift lands badly; a read's frame is reused at once.
    fn land_bad(&mut self, seat: Seat, lift: Lift<B>, before: u64, after: u64)
        requires calm { awaits_reuse self.old.past ≡ false }
        requires may { MayLand B.seen B.tells self.old seat lift }
        requires bad { lift.result ≡ Carried.Bad before after }
        ensures { HasLanded B.seen B.tells seat lift self.old self.new }
    {
        // The proof learns here what the state keeps.
        let _ = &self.config;
        if lift.is_read() {
            let f = lift.frame();
            let page = lift.page();
            self.in_fail(seat, lift);
            return self.reuse(seat, f, page);
        }
        self.out_fail(seat, lift)
    }
}
