ghost use Rattle.std.specs.Prelude.{◌≡◌, ℕ};
ghost use Rattle.std.specs.Option.{option_map};
ghost use Rattle.pager_policy.specs.Cleaning.{rounds};
ghost use Rattle.pager_policy.specs.Moves.{cleaning, control};
ghost use Rattle.pager_policy.specs.Rundown.{round_move, rounds_move};
ghost use Rattle.vm_state.specs.History.{pager};
ghost use Rattle.call_begins.specs.MayBegin.{empty};
ghost use Rattle.carried_landings.specs.Moved.{IsMoved, IsSteady, MovesTo};
ghost use Rattle.rundown.specs.Cleanings.{control_at};
ghost use Rattle.rundown.specs.Cleans.{writer_seat};

use crate::cleaning::Cleaning;
use crate::clusters::write_one_cluster;
use crate::listed::is_shared_listed;
use disk_trait::Block;
use vm_state::{Carrier, State};

/// How many rounds of writing there are.
pub const ROUNDS: u32 = 2;

/// One cluster of a round is written. Says how many lifts are left in the round then: the cluster's may be
/// more than are left now. Doesn't allocate.
fn write_round<B: Block>(state: &mut State<B>, left: u32, carrier: &mut Carrier<B>) -> u32
    requires steady { IsSteady state.old }
    requires carrier { carrier.old ≡ empty (writer_seat state.old) }
    ensures carrier { carrier.new ≡ carrier.old }
    ensures moved { (following : ℕ) → IsMoved B.tells.content state.old state.new
        (round_move state.old.config (pager state.old) following left) (control (cleaning (rounds following result))) }
{
    let cluster = write_one_cluster(state, carrier);
    left.saturating_sub(cluster.writes)
}

/// A round goes on while it has lifts left, and then the next one begins, with as many lifts as pages
/// are on the modified list. None once no shared page is on it, or no round follows: then no entry was
/// made. Doesn't allocate.
pub fn write_rounds<B: Block>(
    state: &mut State<B>,
    following: u32,
    left: u32,
    carrier: &mut Carrier<B>,
) -> Option<Cleaning>
    requires steady { IsSteady state.old }
    requires carrier { carrier.old ≡ empty (writer_seat state.old) }
    ensures carrier { carrier.new ≡ carrier.old }
    ensures moved { MovesTo B.tells.content state.old state.new
        (rounds_move state.old.config (pager state.old) following left) (option_map control_at result) }
{
    if !is_shared_listed(state) {
        return None;
    }
    if left > 0 {
        let rest = write_round(state, left, carrier);
        return Some(Cleaning::Rounds {
            following,
            left: rest,
        });
    }
    if following == 0 {
        return None;
    }
    let listed = state.modified_len();
    let unwritten = write_round(state, listed, carrier);
    Some(Cleaning::Rounds {
        following: following - 1,
        left: unwritten,
    })
}
