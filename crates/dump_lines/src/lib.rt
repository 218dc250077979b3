//! The text of a dump, with a recount of what it keeps of its page frames.
#![tactic(auto)]

mod checks;
mod codes;
mod counting;
mod counts;
mod frames;
mod list_lines;
mod pins;
mod processes;
mod recounting;
mod showing;

pub use counts::Counts;
pub use recounting::recount;
pub use showing::show;
