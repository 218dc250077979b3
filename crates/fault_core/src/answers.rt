ghost use Rattle.std.specs.Prelude.{◌≡◌};
ghost use Rattle.pager_model.specs.Lookups.{section_of};
ghost use Rattle.vm_state.specs.PageReadings.{IsGranted};
ghost use Rattle.fault_core.specs.Cases.{at_refusal};
ghost use Rattle.fault_core.specs.Gives.{Gives, MayRefer};

use crate::faults::{fault, replaces_first};
use crate::next::Next;
use crate::sought::Sought;
use crate::waits::replace;
use disk_trait::Block;
use vm_state::{Carrier, State};
use vm_types::{BlockId, Origin, PAGE_BYTES, Proc, Ref, Reply, Seat};

/// No adjustment is pending. The page's entry alone says mostly what comes next.
pub fn answer<B: Block>(state: &mut State<B>, seat: Seat, r: Ref, carrier: &mut Carrier<B>) -> Next
    requires { MayRefer state.old seat r (at_refusal state.old seat r) carrier.old }
    ensures { Gives B.seen B.tells state.old state.new seat r (at_refusal state.old seat r) result carrier.old carrier.new }
{
    if let Some(valid) = state.granted(Proc(seat.0), r) {
        if valid {
            return Next::Answered(state.done(seat, r));
        }
        if replaces_first(state, Proc(seat.0)) {
            return replace(state, seat, r, carrier);
        }
    }
    look(state, seat, r, carrier)
}

/// The section block of an origin.
fn section_of(from: Origin) -> Option<BlockId>
    ensures { result ≡ section_of from }
{
    match from {
        Origin::Zero => None,
        Origin::Section(s, i) => Some(BlockId::Section(s, i)),
    }
}

/// It is looked what the process has at the page number.
#[inline(never)]
fn look<B: Block>(state: &mut State<B>, seat: Seat, r: Ref, carrier: &mut Carrier<B>) -> Next
    requires { MayRefer state.old seat r (at_refusal state.old seat r) carrier.old }
    ensures { Gives B.seen B.tells state.old state.new seat r (at_refusal state.old seat r) result carrier.old carrier.new }
{
    let there = state.found(Proc(seat.0), r.addr.0 / PAGE_BYTES);
    match state.refusal(Proc(seat.0), r, there) {
        Some(why) => {
            state.denied(seat, r, why);
            Next::Answered(Reply::Refused(why))
        }
        None => {
            let found = there.unwrap();
            if found.valid {
                return Next::Answered(state.done(seat, r));
            }
            let behind = section_of(found.from);
            let backing = state.backing(found.page);
            let x = Sought {
                seat,
                r,
                page: found.page,
                behind,
                backing,
            };
            fault(state, x, carrier)
        }
    }
}
