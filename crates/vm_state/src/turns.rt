ghost use Rattle.std.specs.Prelude.{◌≡◌};

use crate::state::State;
use disk_trait::Block;
use state_pages::turn_ring;
use vm_journal::{Entry, What};
use vm_types::{Proc, ProcStatus, Seat};

impl<B: Block> State<B> {
    ghost use Rattle.vm_journal.specs.declared.entry.What.{What};
    ghost use Rattle.vm_state.specs.History.{MayAdd, added, entry_by};

    /// The working set limit of the seat's process is adjusted.
    pub fn limit(&mut self, seat: Seat, n: u32, faults: u64)
        requires { MayAdd self.old (entry_by seat (What.Limit n faults)) }
        ensures { self.new ≡ added self.old (entry_by seat (What.Limit n faults)) }
    {
        let row = &mut self.processes[seat.0 as usize];
        row.limit = n;
        row.references = 0;
        row.faults = 0;
        self.journal.push(Entry {
            seat,
            what: What::Limit { n, faults },
        });
    }

    /// The status of a process turns. One that leaves loses the locks on its pages.
    pub fn turn(&mut self, seat: Seat, p: Proc, status: ProcStatus)
        requires { MayAdd self.old (entry_by seat (What.Turn p status)) }
        ensures { self.new ≡ added self.old (entry_by seat (What.Turn p status)) }
    {
        let row = &mut self.processes[p.0 as usize];
        row.status = status;
        turn_ring(&mut row.ring, status);
        self.journal.push(Entry {
            seat,
            what: What::Turn { p, status },
        });
    }
}
