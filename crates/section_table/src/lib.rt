//! The section table: what is behind each page of the processes, and the section block of a page.
#![tactic(auto)]

mod laying;
mod part;
mod sections;

pub use part::Part;
pub use sections::Sections;
