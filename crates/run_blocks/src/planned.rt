ghost use Rattle.std.specs.Prelude.{◌≡◌};
ghost use Rattle.pager_model.specs.CountedBlock.{plan_of};

use vm_types::{BlockId, Config, is_same_block};

/// The numbers of the calls at which the configuration makes a block fail; none if it names none.
/// Doesn't allocate.
pub fn planned_calls(config: &Config, id: BlockId) -> &[u32]
    ensures { result.now ≡ plan_of config.now id }
{
    for fails in config.fails.items() {
        if is_same_block(id, fails.block) {
            return fails.calls.items();
        }
    }
    &[]
}
