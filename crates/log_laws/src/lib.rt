//! Laws on logs: a legal log is the text of a legal run and the other way round, a text has one verdict at
//! most, and a fault stays whatever follows its line. No code.
#![tactic(auto)]

mod laws;
mod rundowns;

pub use laws::{
    a_fault_stands, cut_logs_are_at_fault, legal_lines_are_short, legal_logs_are_runs, one_verdict,
    runs_are_legal_logs,
};
pub use rundowns::{endings_are_at_rest, rundowns_are_stepwise};
