//! Why a line of a log isn't a legal next one: the conditions of an entry, each as a value that says what
//! would have been right where one value would, and what it states of the entries so far and of the pager's
//! state after them; and what else may be wrong with a line.
#![tactic(auto)]

mod line_reason;
mod reason;

pub use line_reason::LineReason;
pub use reason::Reason;
