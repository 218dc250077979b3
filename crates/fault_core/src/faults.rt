ghost use Rattle.std.specs.Prelude.{◌≡◌, ◌<◌, ◌&&◌, true, length, nat_eq, nat_le, not};
ghost use Rattle.vm_types.specs.Ring.{filled};
ghost use Rattle.pager_model.specs.Charging.{is_uncharged};
ghost use Rattle.pager_model.specs.Maps.{is_paged};
ghost use Rattle.vm_state.specs.History.{pager};
ghost use Rattle.fault_core.specs.Cases.{IsReplacedFirst, at_fault, at_room};
ghost use Rattle.fault_core.specs.Gives.{Gives, MaySeek};

use crate::fetches::held;
use crate::next::{AgainWhy, Next};
use crate::sought::Sought;
use crate::waits::{read, replace};
use disk_trait::Block;
use state_pages::is_paged;
use vm_state::{Carrier, State};
use vm_types::{Config, Proc};

/// A page that is mapped isn't valid.
pub fn fault<B: Block>(state: &mut State<B>, x: Sought, carrier: &mut Carrier<B>) -> Next
    requires { MaySeek state.old x (at_fault state.old x) carrier.old }
    ensures { Gives B.seen B.tells state.old state.new x.seat x.r (at_fault state.old x) result carrier.old carrier.new }
{
    match x.backing.frame {
        Some(f) => read(state, x, f, carrier),
        None => room(state, x, carrier),
    }
}

/// Whether it is a page that is to have a block of the page file, and isn't charged yet.
pub fn is_uncharged(config: &Config, x: Sought) -> bool
    ensures { result ≡ (is_paged config.now x.page && not (x.backing).charged) }
{
    is_paged(config, x.page) && !x.backing.charged
}

/// Whether each block of the page file is charged, and the page needs one.
fn is_charging<B: Block>(state: &State<B>, x: Sought) -> bool
    requires { (is_paged state.now.config x.page && not (x.backing).charged) ≡ is_uncharged state.now.config (pager state.now) x.page }
    ensures { result ≡ (is_uncharged state.now.config (pager state.now) x.page && nat_eq (length (pager state.now).charged) state.now.config.pagefile) }
{
    is_uncharged(state.config(), x) && state.charged() == state.config().pagefile
}

/// Whether as many pages are in the working set as its limit allows.
fn is_at_limit<B: Block>(state: &State<B>, p: Proc) -> bool
    requires { p.0 < length state.now.config.procs }
    ensures { result ≡ nat_le ((pager state.now).limit p.0) (filled ((pager state.now).ring p.0).slots) }
{
    state.limit_of(p) <= state.count(p)
}

/// Whether a slot is to be made free, whatever is known of the page: nothing is in flight, not each block
/// of the page file is charged, and as many pages are in the working set as its limit allows.
pub fn replaces_first<B: Block>(state: &State<B>, p: Proc) -> bool
    requires { p.0 < length state.now.config.procs }
    ensures { result ≡ true → IsReplacedFirst state.now p.0 }
{
    state.owed() == 0 && state.charged() < state.config().pagefile && is_at_limit(state, p)
}

/// No other seat is reading the page.
#[inline(always)]
pub fn room<B: Block>(state: &mut State<B>, x: Sought, carrier: &mut Carrier<B>) -> Next
    requires { MaySeek state.old x (at_room state.old x) carrier.old }
    ensures { Gives B.seen B.tells state.old state.new x.seat x.r (at_room state.old x) result carrier.old carrier.new }
{
    if is_charging(state, x) {
        Next::Again(AgainWhy::Charging)
    } else if is_at_limit(state, Proc(x.seat.0)) {
        replace(state, x.seat, x.r, carrier)
    } else {
        held(state, x, carrier)
    }
}
