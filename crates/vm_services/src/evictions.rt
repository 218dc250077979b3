ghost use Rattle.std.specs.Prelude.{◌≡◌};
ghost use Rattle.vm_services.specs.Cases.{at_evict};
ghost use Rattle.vm_services.specs.Serves.{MayServe, Serves};

use crate::next::{ServeNext, ServeWhy};
use call_begins::{goes_to, is_stopped};
use disk_trait::Block;
use vm_journal::EvictWhy;
use vm_state::State;
use vm_types::{Addr, PAGE_BYTES, Proc, Seat};

/// Evicts a valid page, unless its frame has to wait for the modified list.
pub fn evict<B: Block>(state: &mut State<B>, seat: Seat, vpn: u32, why: EvictWhy) -> ServeNext
    requires { MayServe state.old seat (at_evict state.old seat vpn why) }
    ensures { Serves state.old state.new seat (at_evict state.old seat vpn why) result }
{
    match state.valid_frame(Proc(seat.0), vpn) {
        Some(f) => {
            let row = state.frame(f);
            let to = goes_to(row);
            if is_stopped(state, f, to) {
                ServeNext::Again(ServeWhy::ModifiedFull)
            } else {
                let a = Addr(PAGE_BYTES * vpn);
                state.evict(seat, Proc(seat.0), a, f, why, to);
                ServeNext::More
            }
        }
        None => ServeNext::Again(ServeWhy::ModifiedFull),
    }
}
