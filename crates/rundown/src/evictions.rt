ghost use Rattle.std.specs.Prelude.{◌≡◌};
ghost use Rattle.std.specs.Option.{option_map};
ghost use Rattle.rundown.specs.Cleanings.{control_at};
ghost use Rattle.rundown.specs.Cleans.{CanClean, Cleans};
ghost use Rattle.rundown.specs.Places.{IsThere, place_as};

use crate::cleaning::Cleaning;
use crate::clusters::write_one_cluster;
use crate::places::Place;
use crate::seats::writer;
use call_begins::{goes_to, is_stopped};
use disk_trait::Block;
use vm_journal::EvictWhy;
use vm_state::{Carrier, State};
use vm_swapper::see;
use vm_types::{Addr, PAGE_BYTES};

/// The page at a place is evicted, unless that is stopped: then one cluster is written first. None if
/// the carrier for the eviction has failed: then the next place is to be looked at, and nothing was made.
/// Doesn't allocate.
pub fn clean_at<B: Block>(
    state: &mut State<B>,
    at: Place,
    failed: bool,
    carrier: &mut Carrier<B>,
) -> Option<Cleaning>
    requires can { CanClean state.old carrier.old }
    requires there { IsThere state.old at }
    ensures carrier { carrier.new ≡ carrier.old }
    ensures cleans { Cleans B.tells.content state.old state.new (place_as at) failed (option_map control_at result) }
{
    match see(state, at.process, at.slot) {
        Some(x) => {
            let seat = writer(state);
            let row = state.frame(x.frame);
            let to = goes_to(row);
            if !is_stopped(state, x.frame, to) {
                let a = Addr(PAGE_BYTES * x.vpn);
                state.evict(seat, at.process, a, x.frame, EvictWhy::Rundown, to);
                return Some(Cleaning::Evicting {
                    process: at.process,
                    slot: at.slot + 1,
                    failed: false,
                });
            }
            if failed {
                return None;
            }
            let cluster = write_one_cluster(state, carrier);
            Some(Cleaning::Evicting {
                process: at.process,
                slot: at.slot,
                failed: cluster.all_failed,
            })
        }
        None => None,
    }
}
