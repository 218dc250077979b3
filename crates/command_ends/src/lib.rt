//! How a command ends: the status, its line, the line that says what is wrong with a trace, what is
//! wrong as a value, and what goes with each status.
#![tactic(auto)]

mod fault;
mod line;
mod status;
mod wrong;

pub use fault::end_fault;
pub use line::{push_counted, write_line};
pub use status::{Status, end_with};
pub use wrong::{Wrong, wrong_of};
