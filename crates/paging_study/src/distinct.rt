ghost use Rattle.std.specs.Prelude.{◌≡◌};
ghost use Rattle.paging_study.specs.Distinct.{distinct_pages};

use crate::string::PageString;

/// How many distinct pages there are among these. Doesn't allocate.
pub fn distinct_pages(pages: &PageString) -> u32
    ensures { result ≡ distinct_pages pages.now.pages.items }
{
    let mut count = 0;
    for first in &pages.firsts {
        count += u32::from(*first == 0);
    }
    count
}
