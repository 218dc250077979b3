//! What each entry of the pager does in the PFN database of the state that runs, to the row of one page
//! frame and to the two page lists: an entry that becomes valid or stops being so, a pin, and a read or
//! a write that begins or ends.
#![tactic(auto)]

mod entries;
mod pins;
mod reads;
mod writes;

pub use entries::{enter, leave};
pub use pins::count_pin;
pub use reads::{begin_read, end_read, end_read_free, fail_read};
pub use writes::{begin_write, end_write};
