//! The command `show`: it reads a dump, counts anew what the dump keeps of its page frames, and writes
//! what it holds and what is wrong in it.
#![tactic(auto)]

mod command;

pub use command::show_dump;
