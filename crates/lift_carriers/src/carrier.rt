ghost use Rattle.std.specs.Prelude.{◌≡◌, ◌<◌, ◌∷◌, ◌++◌, List, [], length, reverse, IfOk};
ghost use Rattle.std.specs.List.{AllByRecursion};

use disk_trait::Block;
use frame_store::Lift;
use std::alloc::Global;
use std::marker::Model;
use vm_types::{NoMemory, Seat};

/// The lifts of a seat that are carried together, in the order in which they began: at most 16. They
/// are carried outside of the state.
#[derive(Drop)]
pub struct Carrier<B: Block> {
    seat: Seat,
    lifts: Vec<Lift<B>>,
}

impl<B: Block> Model for Carrier<B> {
    ghost use Rattle.std.specs.Prelude.{◌≤◌, vec_capacity, vec_len};
    ghost use Rattle.lift_carriers.specs.CarrierView.{CarrierView};

    ghost Value = { CarrierView B };

    ghost view = { λ c. record { seat = c.seat; lifts = c.lifts.items } };

    ghost invariant = { λ c. record {
      few : vec_len c.lifts ≤ 16;
      room : 16 ≤ vec_capacity c.lifts;
    } };
}

impl<B: Block> Carrier<B> {
    ghost use Rattle.frame_store.specs.LiftView.{LiftView};
    ghost use Rattle.frame_store.specs.declared.lift.Carried.{Carried};
    ghost use Rattle.vm_journal.specs.declared.entry.Entry.{Entry};
    ghost use Rattle.vm_types.specs.declared.config.Config.{Config};
    ghost use Rattle.lift_carriers.specs.CarrierView.{taking};
    ghost use Rattle.lift_carriers.specs.Carrying.{AreCarried};
    ghost use Rattle.lift_carriers.specs.LiftsFit.{LiftFits};

    /// An empty carrier of a seat. No other call allocates.
    ///
    /// # Errors
    /// `NoMemory` if out of memory.
    pub fn new(alloc: Global, seat: Seat) -> Result<Carrier<B>, NoMemory>
        ensures { IfOk result (λ c. c ≡ record { seat = seat; lifts = [] }) }
    {
        let lifts = Vec::with_capacity(alloc, 16)?;
        Ok(Carrier { seat, lifts })
    }

    /// How many lifts it has: at most 16.
    pub fn len(&self) -> u32
        ensures few { result < 17 }
        ensures count { result ≡ length self.now.lifts }
    {
        self.lifts.len() as u32
    }

    /// Reads or writes the block of each lift, in their order. None of them was carried yet. A lift that
    /// fitted a journal still fits it. Doesn't allocate.
    #[inline(always)]
    pub fn carry(&mut self)
        requires { AllByRecursion (λ (lift : LiftView B). lift.result ≡ Carried.Waiting) self.old.lifts }
        ensures seat { self.new.seat ≡ self.old.seat }
        ensures carried { AreCarried B.seen B.tells self.old.lifts self.new.lifts }
        ensures fits { (config : Config) (past : List Entry)
            → AllByRecursion (LiftFits B.seen B.tells config past)
            self.old.lifts
            → AllByRecursion (LiftFits B.seen B.tells config past)
            self.new.lifts }
    {
        for n in 0..self.lifts.len() {
            let lift = &mut self.lifts[n];
            lift.carry();
        }
    }

    /// The seat.
    pub fn seat(&self) -> Seat
        ensures { result ≡ self.now.seat }
    {
        self.seat
    }

    /// Turns its lifts round.
    pub fn turn(&mut self)
        ensures { self.new ≡ record self.old { lifts = reverse self.old.lifts } }
    {
        self.lifts.reverse();
    }

    /// Gives its last lift.
    pub fn last(&mut self) -> Lift<B>
        requires { 0 < length self.old.lifts }
        ensures { self.old ≡ record self.new { lifts = self.new.lifts ++ result ∷ [] } }
    {
        let end = self.lifts.len() - 1;
        self.lifts.swap_remove(end)
    }

    /// Takes one more lift.
    pub fn take(&mut self, lift: Lift<B>)
        requires { length self.old.lifts < 16 }
        ensures { self.new ≡ taking self.old lift }
    {
        self.lifts.push_reserved(lift);
    }
}

fn is_send<X: Send>(_: &X) {}

/// A carrier may be moved to another thread.
pub fn carrier_is_moved<B: Block>(carrier: &Carrier<B>) {
    is_send(carrier);
}
