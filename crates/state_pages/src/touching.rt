ghost use Rattle.std.specs.Prelude.{◌≡◌};
ghost use Rattle.state_parts.specs.ChargedTable.{IsTableSet, kept_at};
ghost use Rattle.state_fits.specs.Pages.{touched_row};

use state_parts::{ChargedPage, ChargedPages};
use vm_types::Page;

/// Touches a page: of one that is charged it is kept.
#[tactic(auto, using(crate::proofs::TouchedRows::touched_before, crate::proofs::TouchedRows::untouched))]
#[inline(always)]
pub fn touch(pages: &mut ChargedPages, page: Page)
    ensures { IsTableSet pages.old pages.new page (touched_row (kept_at pages.old page)) }
{
    if let Some(row) = pages.at(page) {
        if !row.touched {
            let touched = ChargedPage {
                touched: true,
                ..row
            };
            pages.set(page, Some(touched));
        }
    }
}
