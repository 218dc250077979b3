//! The PFN database: a row for each page frame, and the free and the modified page list.
#![tactic(auto)]

mod kept;
mod opening;
mod pfns;
mod row;

pub use page_lists::ListName;
pub use pfns::Pfns;
pub use row::Row;
