//! The command `check`: it reads a trace and the log behind it, runs nothing, and writes whether the log
//! is legal, or which of its lines is the first that isn't.
#![tactic(auto)]

mod command;
mod ending;
mod judging;

pub use command::check;
