//! Runs of the program over ends in memory, for its tests. The source, the sink and the depot fail at
//! given calls; and there is a first trace with the text of its run.
#![tactic(auto)]

mod first_run;
mod runs;

pub use first_run::{FIRST_RUN, FIRST_RUN_TEXT};
pub use runs::{outcome, serial, serial_over};
