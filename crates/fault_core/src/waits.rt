ghost use Rattle.std.specs.Prelude.{◌≡◌, ◌<◌, ◌&&◌, Some, false, find, length, nat_eq, nat_le};
ghost use Rattle.pager_policy.specs.Advance.{is_named};
ghost use Rattle.pager_model.specs.Evict.{evicted_to, victim_of};
ghost use Rattle.pager_model.specs.Forget.{holder};
ghost use Rattle.pager_policy.specs.Given.{goes_to, is_stopped, page_address};
ghost use Rattle.pager_model.specs.Maps.{page_number};
ghost use Rattle.vm_state.specs.History.{pager};
ghost use Rattle.fault_core.specs.Cases.{at_read, at_replace};
ghost use Rattle.fault_core.specs.Gives.{Gives, MayRefer, MaySeek};

use crate::faults::room;
use crate::next::{AgainWhy, Next};
use crate::sought::Sought;
use call_begins::{goes_to, is_stopped};
use disk_trait::Block;
use vm_journal::EvictWhy;
use vm_state::{Carrier, OpenRead, State};
use vm_types::{Addr, PAGE_BYTES, Pfn, Proc, Ref, Seat};
use working_set::Choice;

/// The first address of the page that is referred to.
pub fn page_start(r: Ref) -> Addr
    ensures { result ≡ page_address (page_number (r.addr).0) }
{
    Addr(PAGE_BYTES * (r.addr.0 / PAGE_BYTES))
}

/// Whether a collision names this read.
fn is_named(collided: Option<u64>, k: u64) -> bool
    ensures { result ≡ is_named collided k }
{
    match collided {
        Some(j) => j == k,
        None => false,
    }
}

/// Whether the seat itself reads.
fn is_of(reader: OpenRead, seat: Seat) -> bool
    ensures { result ≡ nat_eq (reader.seat).0 seat.0 }
{
    reader.seat.0 == seat.0
}

/// The page is in this frame. If another seat is reading it, the read is named once, and then waited
/// for.
pub fn read<B: Block>(state: &mut State<B>, x: Sought, f: Pfn, carrier: &mut Carrier<B>) -> Next
    requires holds { holder state.old.config (pager state.old).page x.page ≡ Some f.0 }
    requires seeks { MaySeek state.old x (at_read state.old x f.0) carrier.old }
    ensures { Gives B.seen B.tells state.old state.new x.seat x.r (at_read state.old x f.0) result carrier.old carrier.new }
{
    match state.read_on(f) {
        Some(reader) => {
            if is_of(reader, x.seat) {
                return room(state, x, carrier);
            }
            let named = state.collided(Proc(x.seat.0));
            if is_named(named, reader.start) {
                return Next::Again(AgainWhy::Collided);
            }
            let start = page_start(x.r);
            state.collide(x.seat, start, f, reader.start);
            Next::More
        }
        None => room(state, x, carrier),
    }
}

/// The slot that a choice names; the first if it names none.
fn victim_of(choice: Choice) -> u32
    ensures { result ≡ victim_of choice }
{
    match choice {
        Choice::Victim(n) => n,
        _ => 0,
    }
}

/// As many pages are in the working set as its limit allows: the ring's victim leaves it.
#[inline(always)]
pub fn replace<B: Block>(state: &mut State<B>, seat: Seat, r: Ref, carrier: &mut Carrier<B>) -> Next
    requires { MayRefer state.old seat r (at_replace state.old seat) carrier.old }
    ensures { Gives B.seen B.tells state.old state.new seat r (at_replace state.old seat) result carrier.old carrier.new }
{
    let p = Proc(seat.0);
    let choice = state.choice(p);
    let n = victim_of(choice);
    match state.slot(p, n) {
        Some(slot) => {
            let row = state.frame(slot.frame);
            let to = goes_to(row);
            if is_stopped(state, slot.frame, to) {
                Next::Again(AgainWhy::ModifiedFull)
            } else {
                let a = Addr(PAGE_BYTES * slot.vpn);
                state.evict(seat, p, a, slot.frame, EvictWhy::Replace, to);
                Next::More
            }
        }
        None => Next::Again(AgainWhy::ModifiedFull),
    }
}
