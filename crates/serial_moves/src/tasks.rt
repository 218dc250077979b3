ghost use Rattle.std.specs.Prelude.{◌≡◌};
ghost use Rattle.pager_policy.specs.Policy.{next_task};

use disk_trait::Block;
use vm_state::State;
use vm_types::Task;

/// The next request of the body; none if each was answered.
#[inline(always)]
pub fn next_task<B: Block>(state: &State<B>) -> Option<Task>
    ensures { result ≡ next_task state.now.config state.now.past }
{
    let count = state.all_answered();
    state.config().body.get(count as usize)
}
