//! The commands of the program over its three ends, a source, a sink and a depot: which one the words ask for, which
//! is decided once, and the call that runs it, on one thread (`run_one`, each but `replay`) or on many (`run_many`).
#![tactic(auto)]

mod cli;
mod laws;
mod many;
mod replay_call;
mod ways;
mod words;

pub use cli::{run_one, run_one_and_tell};
pub use command_calls::CallEnds;
pub use command_ends::{Status, Wrong};
pub use laws::dumps_are_shown_right;
pub use many::{run_many, run_many_and_tell};
pub use run_commands::Make;
pub use ways::{Way, which};
pub use words::{Command, command_of};
