//! The text of a log behind its entries: the report, and in the end the dirty pages and the status.
#![tactic(auto)]

mod dirty;
mod ending;
mod recounting;
mod report;

pub use ending::ending_text;
pub use report::report_text;
