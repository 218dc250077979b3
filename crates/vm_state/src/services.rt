ghost use Rattle.std.specs.Prelude.{◌≡◌, false};
ghost use Rattle.state_fits.specs.Serving.{is_serving, pin_service};
ghost use Rattle.state_pages.specs.Locking.{lock_service};

use crate::speaking::speak;
use crate::state::State;
use disk_trait::Block;
use frame_changes::count_pin;
use state_pages::{create_zeros, frame_in, lock_service, pin_service, protect};
use state_parts::{lock_range, mark_pin, page_to_pin};
use vm_journal::What;
use vm_types::{Addr, Answer, Proc, Seat, Service};

impl<B: Block> State<B> {
    ghost use Rattle.vm_journal.specs.declared.entry.What.{What};
    ghost use Rattle.vm_types.specs.declared.reply.Answer.{Answer};
    ghost use Rattle.vm_types.specs.declared.service.Service.{Service};
    ghost use Rattle.vm_state.specs.History.{MayAdd, added, entry_by};

    /// Answers a service of the seat's process with an answer that changes nothing: a refusal, a
    /// failure, or that nothing is left to purge.
    pub fn answer_unchanged(&mut self, seat: Seat, s: Service, answer: Answer)
        requires may { MayAdd self.old (entry_by seat (What.Served s answer)) }
        requires unchanged { is_serving s answer ≡ false }
        ensures { self.new ≡ added self.old (entry_by seat (What.Served s answer)) }
    {
        let spoken = &mut self.spoken[seat.0 as usize];
        speak(&mut self.journal, spoken, seat, What::Served { s, answer });
    }

    /// Sets the working set limit of the seat's process.
    pub fn adjust(&mut self, seat: Seat, limit: u32)
        requires { MayAdd self.old (entry_by seat (What.Served (Service.Adjust limit) Answer.Good)) }
        ensures { self.new ≡ added self.old (entry_by seat (What.Served (Service.Adjust limit) Answer.Good)) }
    {
        let row = &mut self.processes[seat.0 as usize];
        row.limit = limit;
        let s = Service::Adjust { limit };
        let answer = Answer::Good;
        let spoken = &mut self.spoken[seat.0 as usize];
        speak(&mut self.journal, spoken, seat, What::Served { s, answer });
    }

    /// Locks the valid pages of a range in the working set of the seat's process, or unlocks its locked
    /// ones, and answers how many.
    pub fn relock(&mut self, seat: Seat, at: Addr, pages: u32, lock: bool, count: u32)
        requires { MayAdd self.old (entry_by seat (What.Served (lock_service lock at pages) (Answer.Count count))) }
        ensures { self.new ≡ added self.old (entry_by seat (What.Served (lock_service lock at pages) (Answer.Count count))) }
    {
        let row = &mut self.processes[seat.0 as usize];
        lock_range(&mut row.ring, at, pages, lock);
        let s = lock_service(lock, at, pages);
        let answer = Answer::Count(count);
        let spoken = &mut self.spoken[seat.0 as usize];
        speak(&mut self.journal, spoken, seat, What::Served { s, answer });
    }

    /// Pins, or unpins, the valid pages of a range of the seat's process in memory, and answers how many.
    pub fn repin(&mut self, seat: Seat, at: Addr, pages: u32, pin: bool, count: u32)
        requires { MayAdd self.old (entry_by seat (What.Served (pin_service pin at pages) (Answer.Count count))) }
        ensures { self.new ≡ added self.old (entry_by seat (What.Served (pin_service pin at pages) (Answer.Count count))) }
    {
        let p = Proc(seat.0);
        let slots = self.processes[seat.0 as usize].ring.slots();
        for slot in 0..slots {
            let row = &mut self.processes[seat.0 as usize];
            if let Some(vpn) = page_to_pin(&row.ring, slot, at, pages, pin) {
                mark_pin(&mut row.ring, slot, pin);
                let f = frame_in(self.tables.look(p, vpn)).unwrap();
                count_pin(self.store.frames_mut(), f, pin);
            }
        }
        let s = pin_service(pin, at, pages);
        let answer = Answer::Count(count);
        let spoken = &mut self.spoken[seat.0 as usize];
        speak(&mut self.journal, spoken, seat, What::Served { s, answer });
    }

    /// Sets the protection code of the pages of a range of the seat's process.
    pub fn protect(&mut self, seat: Seat, at: Addr, pages: u32, prot: u8)
        requires { MayAdd self.old (entry_by seat (What.Served (Service.Protect at pages prot) Answer.Good)) }
        ensures { self.new ≡ added self.old (entry_by seat (What.Served (Service.Protect at pages prot) Answer.Good)) }
    {
        protect(&mut self.tables, Proc(seat.0), at, pages, prot);
        let s = Service::Protect { at, pages, prot };
        let answer = Answer::Good;
        let spoken = &mut self.spoken[seat.0 as usize];
        speak(&mut self.journal, spoken, seat, What::Served { s, answer });
    }

    /// Maps the pages of a range of the seat's process, of which none is mapped, to zeros.
    pub fn create(&mut self, seat: Seat, at: Addr, pages: u32, prot: u8)
        requires { MayAdd self.old (entry_by seat (What.Served (Service.Create at pages prot) Answer.Good)) }
        ensures { self.new ≡ added self.old (entry_by seat (What.Served (Service.Create at pages prot) Answer.Good)) }
    {
        create_zeros(
            &mut self.tables,
            &mut self.sections,
            Proc(seat.0),
            at,
            pages,
            prot,
        );
        let s = Service::Create { at, pages, prot };
        let answer = Answer::Good;
        let spoken = &mut self.spoken[seat.0 as usize];
        speak(&mut self.journal, spoken, seat, What::Served { s, answer });
    }
}
