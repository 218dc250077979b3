//! The dump of the state of the pager, read off its parts.
#![tactic(auto)]

mod codes;
mod dump;
mod frames;
mod lists;
mod pages;
mod processes;

pub use dump::dump_of;
