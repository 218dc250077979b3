//! The moves of the serial policy: one call of the pager's logic with the carrying that follows it, or
//! one turn of a process.
#![tactic(auto)]

mod answers;
mod carrying;
mod control;
mod finding;
mod leaving;
mod moves;
mod requests;
mod tasks;

pub use control::{Control, Doing};
pub use moves::make_move;
