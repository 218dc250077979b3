ghost use Rattle.std.specs.Prelude.{◌≡◌, not};
ghost use Rattle.pager_model.specs.Flights.{awaits_reuse};

use crate::state::State;
use disk_trait::Block;

impl<B: Block> State<B> {
    /// Whether no reuse is due: the last entry is no failed read. Doesn't allocate.
    pub fn is_calm(&self) -> bool
        ensures { result ≡ not (awaits_reuse self.now.past) }
    {
        !self.failed.is_some()
    }
}
