//! The rundown: after the last request the modified page writer's seat evicts each shared page, and
//! writes it back.
#![tactic(auto)]

mod cleaning;
mod clusters;
mod dirty;
mod evictions;
mod listed;
mod moves;
mod places;
mod rounds;
mod runs;
mod seats;

pub use cleaning::Cleaning;
pub use dirty::dirty_pages;
pub use moves::make_move;
pub use runs::rundown;
