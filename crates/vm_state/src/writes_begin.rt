ghost use Rattle.std.specs.Prelude.{◌≡◌, false};

use crate::state::State;
use disk_trait::Block;
use frame_changes::begin_write;
use frame_store::Lift;
use lift_carriers::Carrier;
use state_pages::give_block;
use vm_journal::{Entry, What};
use vm_types::{BlockId, Pfn, Seat};

impl<B: Block> State<B> {
    ghost use Rattle.frame_store.specs.LiftView.{LiftView};
    ghost use Rattle.vm_journal.specs.declared.entry.What.{What};
    ghost use Rattle.vm_state.specs.Beginnings.{LiftsFit};
    ghost use Rattle.lift_carriers.specs.CarrierView.{CanTake, taking};
    ghost use Rattle.vm_state.specs.History.{MayAdd, added, entry_by};
    ghost use Rattle.vm_state.specs.LiftsBegin.{HasBegun};
    ghost use Rattle.lift_carriers.specs.LiftsFit.{LiftFits};

    /// A write of the page in a frame begins; the seat's carrier takes its lift. If the lifts of the
    /// carrier fit the journal, they still do.
    pub fn begin_out(&mut self, seat: Seat, f: Pfn, block: BlockId, carrier: &mut Carrier<B>)
        requires may { MayAdd self.old (entry_by seat (What.Out f block)) }
        requires room { CanTake carrier.old seat }
        ensures state { self.new ≡ added self.old (entry_by seat (What.Out f block)) }
        ensures lift { (lift : LiftView B)
            × HasBegun B.seen B.tells self.old seat (What.Out f block) f.0 block false lift
            × (carrier.new ≡ taking carrier.old lift) }
        ensures fit { LiftsFit B.seen B.tells self.old carrier.old
            → LiftsFit B.seen B.tells self.new carrier.new }
    {
        let lift = self.lift_out(seat, f, block);
        carrier.take(lift);
    }

    /// A write of the page in a frame begins.
    #[inline(always)]
    fn lift_out(&mut self, seat: Seat, f: Pfn, block: BlockId) -> Lift<B>
        requires { MayAdd self.old (entry_by seat (What.Out f block)) }
        ensures state { self.new ≡ added self.old (entry_by seat (What.Out f block)) }
        ensures lift { HasBegun B.seen B.tells self.old seat (What.Out f block) f.0 block false result }
        ensures others { (lift : LiftView B)
            → LiftFits B.seen B.tells self.old.config self.old.past lift
            → LiftFits B.seen B.tells self.new.config self.new.past lift }
    {
        let start = self.journal.len() + 1;
        let kept = self.store.frames().row(f);
        let page = kept.page.unwrap();
        begin_write(self.store.frames_mut(), f);
        give_block(&mut self.pages, &mut self.file, page, block);
        self.roles[f.0 as usize] = None;
        let busy = &mut self.busy[seat.0 as usize];
        *busy += 1;
        self.in_flight += 1;
        let lift = self.store.lift_out(seat, page, f, block, start);
        self.journal.push(Entry {
            seat,
            what: What::Out { f, block },
        });
        lift
    }
}
