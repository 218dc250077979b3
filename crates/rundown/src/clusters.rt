ghost use Rattle.std.specs.Prelude.{◌≡◌, length};
ghost use Rattle.pager_policy.specs.Rundown.{written_for_need};
ghost use Rattle.vm_state.specs.History.{pager};
ghost use Rattle.call_begins.specs.MayBegin.{empty};
ghost use Rattle.carried_landings.specs.CarriedOn.{IsLoaded};
ghost use Rattle.carried_landings.specs.Moved.{IsSteady};
ghost use Rattle.rundown.specs.Cleans.{HasLanded, HasWritten, writer_seat};

use crate::seats::writer;
use carried_landings::carry_and_land;
use disk_trait::Block;
use modified_writer::{Reason, begin};
use vm_state::{Carrier, State};
use vm_types::Seat;

/// A cluster that was written: how many writes it had, at most 16, and whether each of them failed,
/// which is so if there were none.
#[derive(Clone, Copy, Debug, PartialEq, Eq)]
pub struct Cluster {
    pub writes: u32,
    pub all_failed: bool,
}

/// What a seat has begun is carried and lands. Says whether each lift failed. Doesn't allocate.
fn land_writes<B: Block>(state: &mut State<B>, seat: Seat, carrier: &mut Carrier<B>) -> bool
    requires { IsLoaded B.seen B.tells state.old seat carrier.old }
    ensures carrier { carrier.new ≡ empty seat }
    ensures landed { HasLanded B.tells.content state.old state.new seat.0 result }
{
    let landed = carry_and_land(state, carrier);
    landed.all_failed
}

/// The writer's seat writes one cluster, because room is needed: none if the modified list is empty.
/// Doesn't allocate.
pub fn write_one_cluster<B: Block>(state: &mut State<B>, carrier: &mut Carrier<B>) -> Cluster
    requires steady { IsSteady state.old }
    requires carrier { carrier.old ≡ empty (writer_seat state.old) }
    ensures carrier { carrier.new ≡ carrier.old }
    ensures writes { result.writes ≡ length (written_for_need state.old.config (pager state.old)) }
    ensures written { HasWritten B.tells.content state.old state.new result.all_failed }
{
    let seat = writer(state);
    begin(state, seat, Reason::Need, carrier);
    let writes = carrier.len();
    let all_failed = land_writes(state, seat, carrier);
    Cluster { writes, all_failed }
}
