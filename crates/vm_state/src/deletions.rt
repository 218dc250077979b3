ghost use Rattle.std.specs.Prelude.{◌≡◌};

use crate::speaking::speak;
use crate::state::State;
use disk_trait::Block;
use state_pages::{empty_frame, entry_in, uncharge};
use vm_journal::What;
use vm_types::{Addr, Answer, PAGE_BYTES, Page, Proc, Seat, Service};

impl<B: Block> State<B> {
    ghost use Rattle.vm_journal.specs.declared.entry.What.{What};
    ghost use Rattle.vm_types.specs.declared.reply.Answer.{Answer};
    ghost use Rattle.vm_types.specs.declared.service.Service.{Service};
    ghost use Rattle.vm_state.specs.History.{MayAdd, added, entry_by};

    /// Deletes the pages of a range of the seat's process, of which none is valid or in flight.
    pub fn delete(&mut self, seat: Seat, at: Addr, pages: u32)
        requires { MayAdd self.old (entry_by seat (What.Served (Service.Delete at pages) Answer.Good)) }
        ensures { self.new ≡ added self.old (entry_by seat (What.Served (Service.Delete at pages) Answer.Good)) }
    {
        let p = Proc(seat.0);
        for n in 0..pages {
            let vpn = at.0 / PAGE_BYTES + n;
            let place = entry_in(self.tables.look(p, vpn)).unwrap().place;
            empty_frame(self.store.frames_mut(), place);
            let page = Page::Private(p, vpn);
            let kept = self.pages.at(page);
            uncharge(&mut self.file, kept);
            self.pages.set(page, None);
            self.tables.unmap(p, vpn);
            self.sections.forget(p, vpn);
        }
        let s = Service::Delete { at, pages };
        let answer = Answer::Good;
        let spoken = &mut self.spoken[seat.0 as usize];
        speak(&mut self.journal, spoken, seat, What::Served { s, answer });
    }
}
