//! The laws that what is made in turns of seats has its cause. No code.
#![tactic(auto)]

mod laws;

pub use laws::{steps_are_caused, turns_are_caused, whole_in_turns_is_caused};
