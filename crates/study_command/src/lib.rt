//! The command `study`: it reads a trace, runs nothing, and writes what the references of one process
//! cost with so many frames.
#![tactic(auto)]

mod answers;
mod command;
mod printing;
mod words;

pub use command::study_trace;
pub use words::{Study, study_of};
