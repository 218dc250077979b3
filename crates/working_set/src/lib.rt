//! The working set list of a process: a ring of slots, and the hand that replacement moves.
#![tactic(auto)]

mod adjustment;
mod held;
mod ring;

pub use adjustment::adjust;
pub use ring::Ring;
pub use vm_types::Choice;
