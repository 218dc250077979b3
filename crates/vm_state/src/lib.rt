//! The pager's state on its real parts: a method for each kind of entry.
#![tactic(auto)]

mod answering;
mod asking;
mod backs;
mod base;
mod calm;
mod carriers_land;
mod deletions;
mod ends;
mod evictions;
mod faults;
mod flight_readers;
mod kept;
mod landings;
mod page_queries;
mod process_readers;
mod readers;
mod reads_begin;
mod reads_land;
mod reads_valid;
mod references;
mod reuses;
mod room;
mod runs;
mod services;
mod serving;
mod speaking;
mod start;
mod state;
mod transfers;
mod turns;
mod words;
mod writes;
mod writes_begin;

pub use base::StateBase;
pub use kept::state_is_moved;
pub use lift_carriers::{Carrier, Landed};
pub use state::State;
pub use state_pages::OpenRead;
