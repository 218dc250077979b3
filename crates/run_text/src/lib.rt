//! The text of a finished run: the entries before the report, the report of the PFN database, the entries
//! after it, the dirty pages and the status.
#![tactic(auto)]

mod dirty_lines;
mod entries;
mod printing;
mod report;
mod run;
mod states;

pub use dirty_lines::print_dirty;
pub use printing::print;
pub use report::{FrameRow, ProcessRow, Report};
pub use run::print_run;
pub use states::count_states;
