//! The swapper: which process leaves memory, and the steps of one that leaves or comes back.
#![tactic(auto)]

mod come;
mod leave;
mod looks;
mod runs;
mod seen;
mod slots;
mod swap;
mod transfers;
mod victims;

pub use come::come_some;
pub use leave::leave_some;
pub use looks::slot_count;
pub use seen::{Seen, see};
pub use slots::has_shared;
pub use swap::{Swap, SwapWhy};
pub use victims::victim;
