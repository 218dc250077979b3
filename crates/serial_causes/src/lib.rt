//! The laws that what the serial policy makes has its cause. No code.
#![tactic(auto)]

mod laws;

pub use laws::{rundown_is_caused, serial_is_caused, whole_serial_is_caused};
