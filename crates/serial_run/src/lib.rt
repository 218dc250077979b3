//! A whole serial run: each request answered in the order of the body, the report, the rundown, and the
//! blocks given back.
#![tactic(auto)]

mod body;
mod carriers;
mod finished;
mod giving_back;
mod run;
mod to_report;

pub use carriers::all_carriers;
pub use finished::{Counted, Finished, RunFault, RunResult};
pub use giving_back::give_back;
pub use run::{Ending, count_serial, end_state, finish_run, run_serial};
pub use to_report::run_to_report;
