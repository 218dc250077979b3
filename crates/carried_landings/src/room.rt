ghost use Rattle.std.specs.Prelude.{◌≡◌, ◌<◌, ◌≤◌, [], false, OnOk, OnErr};
ghost use Rattle.pager_model.specs.Flights.{awaits_reuse, open_flights};
ghost use Rattle.carried_landings.specs.Moved.{IsSameBut};

use disk_trait::Block;
use vm_state::State;
use vm_types::NoMemory;

/// Room for the entries that a move makes: where there is too little, room for 4096 is reserved.
///
/// # Errors
/// `NoMemory` if out of memory, and only if there was too little room; the state is as before then.
pub fn prepare<B: Block>(state: &mut State<B>) -> Result<(), NoMemory>
    requires landed { open_flights state.old.past ≡ [] }
    requires reused { awaits_reuse state.old.past ≡ false }
    ensures room { OnOk result (64 ≤ state.new.spare) }
    ensures memory { OnErr result (state.old.spare < 64) }
    ensures err { OnErr result (state.new ≡ state.old) }
    ensures same { IsSameBut state.old state.new }
    ensures past { state.new.past ≡ state.old.past }
{
    if state.spare() < 64 {
        state.reserve(4096)?;
    }
    Ok(())
}
