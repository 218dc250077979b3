ghost use Rattle.std.specs.Prelude.{◌≡◌};
ghost use Rattle.vm_types.specs.WellFormed.{IsRange};
ghost use Rattle.vm_types.specs.declared.names.Page.{Page};
ghost use Rattle.pager_policy.specs.Serve.{is_page_in_flight, is_range_in_flight};
ghost use Rattle.vm_state.specs.History.{pager};
ghost use Rattle.vm_services.specs.OwnFlights.{is_own_in_flight};

use disk_trait::Block;
use vm_state::State;
use vm_types::{Addr, PAGE_BYTES, Page, Proc};

/// Whether a private page is in a frame with an open transfer.
fn is_page_in_flight<B: Block>(state: &State<B>, p: Proc, vpn: u32) -> bool
    ensures { result ≡ is_page_in_flight state.now.config state.now.past (pager state.now) (Page.Private p vpn) }
{
    state.run_law();
    match state.backing(Page::Private(p, vpn)).frame {
        Some(f) => state.flight(f).is_some(),
        None => false,
    }
}

/// Whether what a process has at a page number is a private page, in a frame with an open transfer.
fn is_own_in_flight<B: Block>(state: &State<B>, p: Proc, vpn: u32) -> bool
    ensures { result ≡ is_own_in_flight state.now.config state.now.past (pager state.now) p.0 vpn }
{
    match state.found(p, vpn) {
        Some(found) => match found.page {
            Page::Private(q, v) => is_page_in_flight(state, q, v),
            Page::Shared(..) => false,
        },
        None => false,
    }
}

/// Whether some private page of a range of a process is in a frame with an open transfer.
pub fn is_range_in_flight<B: Block>(state: &State<B>, p: Proc, at: Addr, pages: u32) -> bool
    requires { IsRange at.0 pages }
    ensures { result ≡ is_range_in_flight state.now.config state.now.past (pager state.now) p.0 at.0 pages }
{
    let first = at.0 / PAGE_BYTES;
    for n in 0..pages {
        if is_own_in_flight(state, p, first + n) {
            return true;
        }
    }
    false
}
