ghost use Rattle.std.specs.Prelude.{◌≡◌};
ghost use Rattle.vm_types.specs.WellFormed.{IsRange};
ghost use Rattle.pager_policy.specs.Serve.{is_valid_at, valid_in};
ghost use Rattle.pager_model.specs.MappedRanges.{is_unmapped, is_unmapped_at};
ghost use Rattle.vm_state.specs.History.{pager};

use disk_trait::Block;
use vm_state::State;
use vm_types::{Addr, PAGE_BYTES, Proc};

/// Whether a page number of a process isn't mapped.
fn is_unmapped_at<B: Block>(state: &State<B>, p: Proc, vpn: u32) -> bool
    ensures { result ≡ is_unmapped_at (pager state.now) p.0 vpn }
{
    state.found(p, vpn).is_none()
}

/// Whether some page of a range of a process isn't mapped.
pub fn is_unmapped<B: Block>(state: &State<B>, p: Proc, at: Addr, pages: u32) -> bool
    requires { IsRange at.0 pages }
    ensures { result ≡ is_unmapped (pager state.now) p.0 at.0 pages }
{
    let first = at.0 / PAGE_BYTES;
    for n in 0..pages {
        if is_unmapped_at(state, p, first + n) {
            return true;
        }
    }
    false
}

/// Whether the entry of a process for a page number is valid.
fn is_valid_at<B: Block>(state: &State<B>, p: Proc, vpn: u32) -> bool
    ensures { result ≡ is_valid_at (pager state.now) p.0 vpn }
{
    state.valid_frame(p, vpn).is_some()
}

/// The lowest page of a range of a process that is valid; none if none is.
pub fn valid_in<B: Block>(state: &State<B>, p: Proc, at: Addr, pages: u32) -> Option<u32>
    requires { IsRange at.0 pages }
    ensures { result ≡ valid_in (pager state.now) p.0 at.0 pages }
{
    let first = at.0 / PAGE_BYTES;
    for n in 0..pages {
        if is_valid_at(state, p, first + n) {
            return Some(first + n);
        }
    }
    None
}
