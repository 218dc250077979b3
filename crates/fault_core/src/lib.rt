//! The page fault handler: what is made for a reference, step by step, and what is answered.
#![tactic(auto)]

mod answers;
mod cluster;
mod faults;
mod fetches;
mod handler;
mod next;
mod sought;
mod waits;

pub use handler::{advance, refuse};
pub use next::{AgainWhy, Next};
