//! A place for each page that processes may map. Memory is touched only for the pages that got an item
//! and those near them.
#![tactic(auto)]

mod rows;

pub use rows::PageRows;
