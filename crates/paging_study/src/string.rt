ghost use Rattle.std.specs.Prelude.{◌≡◌, ◌≤◌, length, IfOk};
ghost use Rattle.vm_types.specs.declared.limits.TheConstants.{MOST_LONG_REQUESTS};
ghost use Rattle.paging_study.specs.Places.{page_at};
ghost use Rattle.paging_study.specs.Least.{AreBegins};

use crate::intervals::begins_of;
use std::alloc::Global;
use vm_types::NoMemory;

/// The pages that references are to, at most as many as a trace may have requests, and where their intervals begin.
#[derive(Debug, Drop)]
pub struct PageString {
    /// The page of each reference.
    pub pages: Vec<u32>,
    /// For each reference the place of the last one before it to the same page, counted from 1; 0 if
    /// there is none.
    pub firsts: Vec<u32>,
    ghost few: { length pages.items ≤ MOST_LONG_REQUESTS },
    ghost begins: { AreBegins (page_at pages.items) firsts.items },
    ghost len: { length firsts.items ≡ length pages.items },
}

impl PageString {
    /// The string of these pages. Takes time as their number, and while it runs 8 bytes of an address
    /// space for each page up to the greatest; memory only for pages that are referenced and those
    /// near them.
    ///
    /// # Errors
    /// `NoMemory` if memory runs out.
    pub fn of(alloc: Global, pages: Vec<u32>) -> Result<PageString, NoMemory>
        requires { length pages.items ≤ MOST_LONG_REQUESTS }
        ensures { IfOk result (λ string. string.pages.items ≡ pages.items) }
    {
        let firsts = begins_of(alloc, &pages)?;
        Ok(PageString { pages, firsts })
    }
}
