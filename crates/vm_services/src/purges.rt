ghost use Rattle.std.specs.Prelude.{◌≡◌};
ghost use Rattle.vm_types.specs.WellFormed.{IsRange};
ghost use Rattle.vm_types.specs.declared.service.Service.{Service};
ghost use Rattle.vm_services.specs.Cases.{at_service};
ghost use Rattle.vm_services.specs.Serves.{MayServe, Serves};

use crate::evictions::evict;
use crate::next::ServeNext;
use crate::slots::loose_in;
use disk_trait::Block;
use vm_journal::EvictWhy;
use vm_state::State;
use vm_types::{Addr, Answer, Proc, Seat, Service};

/// Purges a range: its lowest valid page that isn't locked is evicted, until there is none.
pub fn purge<B: Block>(state: &mut State<B>, seat: Seat, at: Addr, pages: u32) -> ServeNext
    requires range { IsRange at.0 pages }
    requires may { MayServe state.old seat (at_service state.old seat (Service.Purge at pages)) }
    ensures { Serves state.old state.new seat (at_service state.old seat (Service.Purge at pages)) result }
{
    match loose_in(state, Proc(seat.0), at, pages) {
        Some(vpn) => evict(state, seat, vpn, EvictWhy::Purge),
        None => {
            state.answer(seat, Service::Purge { at, pages }, Answer::Good);
            ServeNext::Answered(Answer::Good)
        }
    }
}
