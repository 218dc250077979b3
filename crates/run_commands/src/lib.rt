//! The commands that run a trace by the serial policy: `serial`, which writes the entry lines, the report, the dirty
//! pages and the status; `dump`, which writes the dump of the state at the report's place; and `make`, which makes its
//! trace, and writes how many entries of each kind its run has.
#![tactic(auto)]

mod counts;
mod dump_call;
mod make;
mod make_call;
mod make_words;
mod serial_call;
mod summary;

pub use dump_call::dump;
pub use make::Make;
pub use make_call::run_make;
pub use make_words::make_of;
pub use serial_call::serial;
pub use summary::print_summary;
