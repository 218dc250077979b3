ghost use Rattle.std.specs.Prelude.{◌≡◌, ◌<◌, length};
ghost use Rattle.vm_types.specs.WellFormed.{IsWellFormedService};
ghost use Rattle.vm_state.specs.Answering.{answer_in};
ghost use Rattle.vm_state.specs.History.{pager};

use crate::state::State;
use disk_trait::Block;
use state_pages::service_answer;
use vm_types::{Answer, Proc, Seat, Service};

impl<B: Block> State<B> {
    ghost use Rattle.vm_journal.specs.declared.entry.What.{What};
    ghost use Rattle.vm_state.specs.Answering.{answer_after};
    ghost use Rattle.vm_state.specs.History.{MayAdd, added, entry_by};

    /// Answers a service of the seat's process; after a transfer that failed, with that, and else with
    /// its first refusal that applies, or with what it does. Gives the answer.
    pub fn served(&mut self, seat: Seat, s: Service, fault: bool) -> Answer
        requires { MayAdd self.old (entry_by seat (What.Served s (answer_after self.old seat.0 s fault))) }
        ensures answer { result ≡ answer_after self.old seat.0 s fault }
        ensures entry { self.new ≡ added self.old (entry_by seat (What.Served s result)) }
    {
        let answer = if fault {
            Answer::DiskFault
        } else {
            self.answer_of(Proc(seat.0), s)
        };
        self.answer(seat, s, answer);
        answer
    }

    /// The answer to a service of a process of the configuration.
    fn answer_of(&self, p: Proc, s: Service) -> Answer
        requires process { p.0 < length self.now.config.procs }
        requires service { IsWellFormedService s }
        ensures { result ≡ answer_in self.now.config (pager self.now) p.0 s }
    {
        let spec = &self.config.procs.items()[p.0 as usize];
        service_answer(&self.tables, &self.processes[p.0 as usize].ring, spec, p, s)
    }
}
