ghost use Rattle.std.specs.Prelude.{◌≡◌, length};
ghost use Rattle.rundown.specs.Cleans.{writer_seat};

use disk_trait::Block;
use vm_state::State;
use vm_types::Seat;

/// How many processes there are: at most 16. Doesn't allocate.
pub fn processes<B: Block>(state: &State<B>) -> u32
    ensures { result ≡ length state.now.config.procs }
{
    state.run_law();
    state.config().procs.items().len() as u32
}

/// The modified page writer's seat. Doesn't allocate.
pub fn writer<B: Block>(state: &State<B>) -> Seat
    ensures { result ≡ writer_seat state.now }
{
    Seat(processes(state))
}
