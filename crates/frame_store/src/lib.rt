//! The frames of memory with their buffers, the blocks of the disk, and what an open transfer takes out
//! of both.
#![tactic(auto)]

mod frame;
mod home;
mod lift;
mod numbers;
mod opening;
mod place;
mod store;

pub use lift::{Carried, Lift};
pub use numbers::{block_count, firsts, page_counts, section_block_count};
pub use store::Store;
