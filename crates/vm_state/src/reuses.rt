ghost use Rattle.std.specs.Prelude.{◌≡◌};

use crate::state::State;
use disk_trait::Block;
use state_pages::{release, rest, uncharge_unread};
use vm_journal::{Entry, What};
use vm_types::{Page, Pfn, Seat};

impl<B: Block> State<B> {
    ghost use Rattle.vm_journal.specs.declared.entry.What.{What};
    ghost use Rattle.vm_state.specs.History.{MayAdd, added, entry_by};

    /// A frame gives up the page that it holds.
    #[inline(always)]
    pub fn reuse(&mut self, seat: Seat, f: Pfn, page: Page)
        requires { MayAdd self.old (entry_by seat (What.Reuse f page)) }
        ensures { self.new ≡ added self.old (entry_by seat (What.Reuse f page)) }
    {
        self.store.frames_mut().empty_to_head(f);
        rest(
            &mut self.tables,
            &self.pages,
            &self.sections,
            &self.firsts,
            page,
        );
        release(&mut self.globals, &self.firsts, page);
        uncharge_unread(&mut self.pages, &mut self.file, self.failed, page);
        self.failed = None;
        self.journal.push(Entry {
            seat,
            what: What::Reuse { f, page },
        });
    }
}
