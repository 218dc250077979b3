ghost use Rattle.std.specs.Prelude.{◌≡◌, true};

use crate::speaking::speak;
use crate::state::State;
use disk_trait::Block;
use flat_model::apply;
use state_pages::{frame_in, marked, touch};
use vm_journal::What;
use vm_types::{PAGE_BYTES, Proc, Ref, Reply, Seat, Why};

impl<B: Block> State<B> {
    ghost use Rattle.vm_journal.specs.declared.entry.What.{What};
    ghost use Rattle.vm_text.specs.References.{IsReplyTo};
    ghost use Rattle.pager_model.specs.Flat.{flat_reply};
    ghost use Rattle.pager_model.specs.Spoken.{flat_after};
    ghost use Rattle.vm_state.specs.History.{MayAdd, MayAnswer, added, entry_by};

    /// Answers a reference of the seat's process whose page is valid. Returns the reply that its entry
    /// shows, which is the flat machine's if the bytes of blocks are known.
    #[inline(always)]
    pub fn done(&mut self, seat: Seat, r: Ref) -> Reply
        requires { MayAnswer self.old seat r }
        ensures added { self.new ≡ added self.old (entry_by seat (What.Done r result)) }
        ensures answers { IsReplyTo r.op result }
        ensures right { B.tells.content ≡ true
            → result ≡ flat_reply self.old.config (flat_after self.old.config self.old.past) seat.0 r }
    {
        let look = self.tables.look(Proc(seat.0), r.addr.0 / PAGE_BYTES);
        let f = frame_in(look).unwrap();
        let kept = self.store.frames().row(f);
        let row = &mut self.processes[seat.0 as usize];
        row.references += 1;
        self.store.frames_mut().mark(f, marked(r.op, kept.modify));
        touch(&mut self.pages, kept.page.unwrap());
        let reply = apply(self.store.bytes_mut(f), r);
        let spoken = &mut self.spoken[seat.0 as usize];
        speak(&mut self.journal, spoken, seat, What::Done { r, reply });
        reply
    }

    /// Refuses a reference of the seat's process.
    pub fn denied(&mut self, seat: Seat, r: Ref, why: Why)
        requires { MayAdd self.old (entry_by seat (What.Denied r why)) }
        ensures { self.new ≡ added self.old (entry_by seat (What.Denied r why)) }
    {
        let row = &mut self.processes[seat.0 as usize];
        row.references += 1;
        let spoken = &mut self.spoken[seat.0 as usize];
        speak(&mut self.journal, spoken, seat, What::Denied { r, why });
    }
}
