//! What a seat does in one turn on the state, for references and services, and as the modified page writer
//! and the swapper: what it has out lands, and then one step is made. Nothing waits, and nothing is
//! carried.
#![tactic(auto)]

mod asking;
mod idle_work;
mod landing;
mod processes;
mod refusing;
mod room;
mod swapping;
mod turned;
mod turns;
mod working;

pub use idle_work::{swap_in_turn, write_in_turn};
pub use turned::{Spoken, Turned};
pub use turns::{refer_in_turn, serve_in_turn};
