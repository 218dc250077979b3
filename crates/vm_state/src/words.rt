ghost use Rattle.std.specs.Prelude.{◌≡◌};
ghost use Rattle.vm_state.specs.History.{pager};
ghost use Rattle.vm_state.specs.Words.{word_in};

use crate::state::State;
use disk_trait::Block;
use state_pages::{entry_in, marked_word};
use vm_types::Proc;

impl<B: Block> State<B> {
    /// The word of the page table entry of a process for a page number (any numbers), with the modify
    /// mark of its frame if it is valid; none exactly if the page isn't mapped. Doesn't allocate.
    pub fn word(&self, p: Proc, vpn: u32) -> Option<u32>
        ensures { result ≡ word_in self.now.config (pager self.now) p.0 vpn }
    {
        let look = self.tables.look(p, vpn);
        let pte = entry_in(look)?;
        Some(marked_word(self.store.frames(), pte))
    }
}
