//! The blocks of a run: made by a depot in the configuration's order, and taken back at its end.
#![tactic(auto)]

mod making;
mod planned;
mod retiring;

pub use making::make_blocks;
pub use retiring::retire_blocks;
