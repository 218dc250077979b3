//! What the rows of legal steps ask of the past: a state that stands for a list of entries without
//! keeping it.
#![tactic(auto)]

mod carriers;
mod carrying;
mod count;
mod counts;
mod direction;
mod flight;
mod flights;
mod open;
mod orders;
mod readers;
mod rundown_readers;
mod shadow_history;
mod spoken;

pub use carrying::Carrying;
pub use direction::Direction;
pub use flight::Flight;
pub use shadow_history::ShadowHistory;
