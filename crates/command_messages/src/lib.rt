//! What goes to standard error beside the program's output: what is wrong with a command line, with usage, what is
//! wrong with an input, or with a line of a log that isn't a legal next one, and what failed; and how bytes are
//! shown in a message.
#![tactic(auto)]

mod bounds;
mod faults;
mod kinds;
mod line;
mod line_words;
mod lines;
mod marks;
mod messages;
mod options;
mod places;
mod reasons;
mod right;
mod said;
mod shown;
mod words;

pub use faults::{CommandName, LineFault, LineOption};
pub use line::{line_fault, quoted_fault};
pub use messages::explain;
