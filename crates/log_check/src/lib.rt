//! Whether a log is legal: each line is judged by what stands for the lines before it, which aren't
//! kept.
#![tactic(auto)]

mod changes;
mod check;
mod check_fault;
mod entry_line;
mod expected;
mod followed;
mod place;
mod replies;
mod step;
mod texts;
mod turning;
mod verdict;

pub use check::check_log;
pub use check_fault::CheckFault;
pub use verdict::Verdict;
