//! The page file: its blocks, how many are charged, and the page that each is assigned to.
#![tactic(auto)]

mod file;
mod full;

pub use file::PageFile;
pub use full::Full;
