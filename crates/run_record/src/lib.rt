//! The record of a run: its entries, or only how many there are of each kind.
#![tactic(auto)]

mod counts;
mod run_record;

pub use run_record::{RunRecord, record_is_moved};
