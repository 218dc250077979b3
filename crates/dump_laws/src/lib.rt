//! The dump of the pager's state after a journal, and that what it keeps is right. Nothing that runs.
#![tactic(auto)]

mod laws;

pub use laws::dumps_of_runs_are_sound;
