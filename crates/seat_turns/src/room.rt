ghost use Rattle.std.specs.Prelude.{◌≡◌, ◌+◌, ◌≤◌, true, false, not};
ghost use Rattle.vm_state.specs.History.{owed};

use disk_trait::Block;
use vm_state::State;

/// Makes room for the entries of a step, unless the state was halted: if fewer than 64 are spare beyond
/// what is due, room for 4096 is reserved. Returns whether there is room; if not, the state is halted.
pub(crate) fn has_room<B: Block>(state: &mut State<B>) -> bool
    ensures room { result ≡ true → owed state.new.past + 64 ≤ state.new.spare }
    ensures same { state.new ≡ record state.old { spare = (state.new).spare; halted = not result } }
    ensures halted { state.old.halted ≡ true → result ≡ false }
{
    state.run_law();
    if state.halted() {
        return false;
    }
    if state.spare() - state.owed() >= 64 {
        return true;
    }
    match state.reserve(4096) {
        Ok(()) => true,
        Err(_) => {
            state.halt();
            false
        }
    }
}
