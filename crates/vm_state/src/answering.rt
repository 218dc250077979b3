ghost use Rattle.std.specs.Prelude.{◌≡◌};

use crate::state::State;
use disk_trait::Block;
use vm_types::{Answer, Seat, Service};

impl<B: Block> State<B> {
    ghost use Rattle.vm_journal.specs.declared.entry.What.{What};
    ghost use Rattle.vm_state.specs.History.{MayAdd, added, entry_by};

    /// Answers a service of the seat's process with an answer that it may have.
    pub fn answer(&mut self, seat: Seat, s: Service, answer: Answer)
        requires { MayAdd self.old (entry_by seat (What.Served s answer)) }
        ensures { self.new ≡ added self.old (entry_by seat (What.Served s answer)) }
    {
        match answer {
            Answer::Good => match s {
                Service::Create { at, pages, prot } => self.create(seat, at, pages, prot),
                Service::Delete { at, pages } => self.delete(seat, at, pages),
                Service::Protect { at, pages, prot } => self.protect(seat, at, pages, prot),
                Service::Adjust { limit } => self.adjust(seat, limit),
                Service::Lock { .. }
                | Service::Unlock { .. }
                | Service::Purge { .. }
                | Service::Pin { .. }
                | Service::Unpin { .. } => self.answer_unchanged(seat, s, answer),
            },
            Answer::Count(count) => match s {
                Service::Lock { at, pages } => self.relock(seat, at, pages, true, count),
                Service::Unlock { at, pages } => self.relock(seat, at, pages, false, count),
                Service::Pin { at, pages } => self.repin(seat, at, pages, true, count),
                Service::Unpin { at, pages } => self.repin(seat, at, pages, false, count),
                Service::Create { .. }
                | Service::Delete { .. }
                | Service::Protect { .. }
                | Service::Purge { .. }
                | Service::Adjust { .. } => self.answer_unchanged(seat, s, answer),
            },
            Answer::InUse
            | Answer::Unmapped
            | Answer::LockLimit
            | Answer::BadLimit
            | Answer::DiskFault => self.answer_unchanged(seat, s, answer),
        }
    }
}
