ghost use Rattle.std.specs.Prelude.{◌≡◌, ◌+◌, ◌≤◌, ◌^◌, length, true};
ghost use Rattle.vm_types.specs.Configuration.{IsWellFormed};
ghost use Rattle.pager_model.specs.Run.{IsRun};
ghost use Rattle.pager_model.specs.Spoken.{IsRight};
ghost use Rattle.vm_state.specs.History.{owed};

use crate::state::State;
use disk_trait::Block;

impl<B: Block> State<B> {
    /// A proof learns here that the configuration is well formed, that the entries are a run, how many there may be, that what is due is paid for, and that the values shown are right
    /// if the bytes of blocks are known. Nothing happens.
    pub fn run_law(&self)
        ensures formed { IsWellFormed self.now.config }
        ensures run { IsRun self.now.config self.now.past }
        ensures short { length self.now.past + self.now.spare ≤ 2 ^ 48 }
        ensures paid { owed self.now.past ≤ self.now.spare }
        ensures right { B.tells.content ≡ true → IsRight self.now.config self.now.past }
    {
        let _ = self.journal.spare();
    }
}
