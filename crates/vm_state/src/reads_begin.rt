ghost use Rattle.std.specs.Prelude.{◌≡◌, true};

use crate::state::State;
use disk_trait::Block;
use frame_changes::begin_read;
use frame_store::Lift;
use lift_carriers::Carrier;
use state_pages::{charge_fault, count_fault, global_number, hold_page, read_page};
use vm_journal::{Entry, Role, What};
use vm_types::{BlockId, Pfn, Seat};

impl<B: Block> State<B> {
    ghost use Rattle.vm_journal.specs.declared.entry.What.{What};
    ghost use Rattle.frame_store.specs.LiftView.{LiftView};
    ghost use Rattle.vm_state.specs.Beginnings.{LiftsFit};
    ghost use Rattle.lift_carriers.specs.CarrierView.{CanTake, taking};
    ghost use Rattle.vm_state.specs.History.{MayAdd, added, entry_by};
    ghost use Rattle.vm_state.specs.LiftsBegin.{HasBegun};
    ghost use Rattle.lift_carriers.specs.LiftsFit.{LiftFits};

    /// A read of a block into a frame begins; the seat's carrier takes its lift. If the lifts of the
    /// carrier fit the journal, they still do.
    pub fn begin_in(
        &mut self,
        seat: Seat,
        f: Pfn,
        block: BlockId,
        role: Role,
        carrier: &mut Carrier<B>,
    )
        requires may { MayAdd self.old (entry_by seat (What.In f block role)) }
        requires room { CanTake carrier.old seat }
        ensures state { self.new ≡ added self.old (entry_by seat (What.In f block role)) }
        ensures lift { (lift : LiftView B)
            × HasBegun B.seen B.tells self.old seat (What.In f block role) f.0 block true lift
            × (carrier.new ≡ taking carrier.old lift) }
        ensures fit { LiftsFit B.seen B.tells self.old carrier.old
            → LiftsFit B.seen B.tells self.new carrier.new }
    {
        let lift = self.lift_in(seat, f, block, role);
        carrier.take(lift);
    }

    /// A read of a block into a frame begins.
    #[inline(always)]
    fn lift_in(&mut self, seat: Seat, f: Pfn, block: BlockId, role: Role) -> Lift<B>
        requires { MayAdd self.old (entry_by seat (What.In f block role)) }
        ensures state { self.new ≡ added self.old (entry_by seat (What.In f block role)) }
        ensures lift { HasBegun B.seen B.tells self.old seat (What.In f block role) f.0 block true result }
        ensures others { (lift : LiftView B)
            → LiftFits B.seen B.tells self.old.config self.old.past lift
            → LiftFits B.seen B.tells self.new.config self.new.past lift }
    {
        let page = read_page(&self.config, &self.sections, role).unwrap();
        let number = global_number(&self.firsts, page);
        begin_read(self.store.frames_mut(), f, page);
        self.roles[f.0 as usize] = Some(role);
        count_fault(&mut self.processes, role);
        hold_page(&mut self.tables, &mut self.globals, f, page, number);
        charge_fault(&mut self.pages, &mut self.file, role, page);
        let busy = &mut self.busy[seat.0 as usize];
        *busy += 1;
        self.in_flight += 1;
        let start = self.journal.len() + 1;
        let lift = self.store.lift_in(seat, page, f, block, start);
        self.journal.push(Entry {
            seat,
            what: What::In { f, block, role },
        });
        lift
    }
}
