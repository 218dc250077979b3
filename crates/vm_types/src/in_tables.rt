ghost use Rattle.std.specs.Prelude.{◌≡◌};
ghost use Rattle.vm_types.specs.PagePlaces.{page_place};

use crate::limits::{P0_PAGES, P1_PAGES, PRIVATE_PAGES};
use crate::names::Proc;

/// The first page of P1 that may be mapped, by its address divided by 512.
const P1_FIRST: u32 = (1 << 22) - P1_PAGES;

/// The page after the last one of P1.
const P1_END: u32 = 1 << 22;

/// The place of a page (its address divided by 512) in a table of the pages that processes may map,
/// `PRIVATE_PAGES` for each process; none for a page that may not be mapped. Any process.
pub fn page_place(p: Proc, vpn: u32) -> Option<usize>
    ensures { result ≡ page_place p.0 vpn }
{
    let region = if vpn < P0_PAGES {
        vpn
    } else if (P1_FIRST..P1_END).contains(&vpn) {
        vpn - P1_FIRST + P0_PAGES
    } else {
        return None;
    };
    Some(p.0 as usize * PRIVATE_PAGES as usize + region as usize)
}
