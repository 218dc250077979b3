//! Laws on ends: by the serial policy each request is answered after a bounded number of moves, since each
//! lowers its rank; and the rundown leaves a shared page dirty exactly if its last write there failed or its
//! eviction stayed stopped, and none if no transfer failed. A pager that is asked one request at a time makes what
//! the policy makes of them all, and each move of a serial run is the first row of the policy's tables that holds.
//! No code.
#![tactic(auto)]

mod laws;
mod one_by_one;
mod rundowns;
mod tables;

pub use laws::{moves_are_bounded, moves_lower};
pub use one_by_one::{asked_is_serial, bodies_have_no_rundown, control_stays, moves_stay};
pub use rundowns::{dirty_because, no_failure_no_dirt};
pub use tables::serial_runs_go_by_cases;
