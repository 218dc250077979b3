ghost use Rattle.std.specs.Prelude.{◌≡◌, OnErr, OnOk, false};

use crate::state::State;
use disk_trait::Block;
use vm_types::{NoMemory, Task};

impl<B: Block> State<B> {
    ghost use Rattle.pager_laws.specs.Bodies.{MayBeAdded, has_rundown, with_task};

    /// Adds a request behind the body. The entries so far are a run of the longer body too: the rundown has
    /// evicted no page.
    ///
    /// # Errors
    /// `NoMemory` if out of memory; the state is then as before.
    pub fn add_request(&mut self, task: Task) -> Result<(), NoMemory>
        requires added { MayBeAdded self.old.config task }
        requires before { has_rundown self.old.past ≡ false }
        ensures ok { OnOk result (self.new ≡ record self.old { config = with_task self.old.config task }) }
        ensures err { OnErr result (self.new ≡ self.old) }
    {
        self.config.body.push(task)
    }
}
