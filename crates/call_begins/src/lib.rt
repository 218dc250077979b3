//! What the calls above the state share: where a frame goes that loses an entry, and the reads and
//! writes that a call begins, one after another.
#![tactic(auto)]

mod begins;
mod leaves;

pub use begins::{read_one, reuse_first, write_one};
pub use leaves::{goes_to, is_stopped};
