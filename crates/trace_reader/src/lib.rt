//! The trace: its meaning, and the reader that takes it piece by piece.
#![tactic(auto)]

mod draft;
mod fault;
mod head;
mod laws;
mod read;
mod store;

pub use fault::TraceFault;
pub use head::read_head;
pub use laws::{a_shown_fault_stays, what_is_read_is_well_formed};
pub use read::read_trace;
pub use trace_lines::{Bound, Breach, Limited};
pub use trace_words::Cause;
