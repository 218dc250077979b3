//! The parts of the state before the first entry: rows of processes, page tables with all mappings laid,
//! section, page file and swap tables.
#![tactic(auto)]

mod mappings_laid;
mod page_parts;
mod rows;

pub use page_parts::{FirstPageParts, first_page_parts, first_pages};
pub use rows::{FirstRows, first_rows};
