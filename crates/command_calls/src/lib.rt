//! The call of a command: its three ends, and what each call does, by what is seen of them before and after.
#![tactic(auto)]

mod ends;

pub use ends::CallEnds;
