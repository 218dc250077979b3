ghost use Rattle.std.specs.Prelude.{◌≡◌, false};
ghost use Rattle.vm_types.specs.WellFormed.{IsRange};
ghost use Rattle.vm_types.specs.declared.service.Service.{Service};
ghost use Rattle.pager_model.specs.MappedRanges.{is_unmapped};
ghost use Rattle.vm_state.specs.History.{pager};
ghost use Rattle.vm_services.specs.Cases.{at_delete, at_rest, at_service};
ghost use Rattle.vm_services.specs.Serves.{MayServe, Serves};

use crate::evictions::evict;
use crate::flights::is_range_in_flight;
use crate::next::{ServeNext, ServeWhy};
use crate::ranges::{is_unmapped, valid_in};
use disk_trait::Block;
use vm_journal::EvictWhy;
use vm_state::State;
use vm_types::{Addr, Answer, Proc, Seat, Service};

/// Deletes the pages of a range, if each is mapped.
pub fn delete<B: Block>(state: &mut State<B>, seat: Seat, at: Addr, pages: u32) -> ServeNext
    requires range { IsRange at.0 pages }
    requires may { MayServe state.old seat (at_service state.old seat (Service.Delete at pages)) }
    ensures { Serves state.old state.new seat (at_service state.old seat (Service.Delete at pages)) result }
{
    if is_unmapped(state, Proc(seat.0), at, pages) {
        state.answer(seat, Service::Delete { at, pages }, Answer::Unmapped);
        ServeNext::Answered(Answer::Unmapped)
    } else {
        delete_mapped(state, seat, at, pages)
    }
}

/// Each page of the range is mapped: the lowest valid one is evicted.
fn delete_mapped<B: Block>(state: &mut State<B>, seat: Seat, at: Addr, pages: u32) -> ServeNext
    requires range { IsRange at.0 pages }
    requires may { MayServe state.old seat (at_delete state.old seat at pages) }
    ensures { Serves state.old state.new seat (at_delete state.old seat at pages) result }
{
    match valid_in(state, Proc(seat.0), at, pages) {
        Some(vpn) => evict(state, seat, vpn, EvictWhy::Delete),
        None => delete_rest(state, seat, at, pages),
    }
}

/// No page of the range is valid: its transfers are waited for, and then it is deleted.
fn delete_rest<B: Block>(state: &mut State<B>, seat: Seat, at: Addr, pages: u32) -> ServeNext
    requires range { IsRange at.0 pages }
    requires may { MayServe state.old seat (at_rest state.old seat at pages) }
    ensures { Serves state.old state.new seat (at_rest state.old seat at pages) result }
{
    if is_range_in_flight(state, Proc(seat.0), at, pages) {
        ServeNext::Again(ServeWhy::InFlight)
    } else {
        state.answer(seat, Service::Delete { at, pages }, Answer::Good);
        ServeNext::Answered(Answer::Good)
    }
}
