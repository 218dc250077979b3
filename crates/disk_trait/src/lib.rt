//! Blocks of 512 bytes on a disk, depots that make them, and both in memory.
#![tactic(auto)]

mod block;
mod body;
mod depot;
mod memory_block;
mod memory_depot;
mod never_fails;
mod plain_block;
mod planned_buf;

pub use block::Block;
pub use depot::{Depot, MakeFault};
pub use memory_block::MemoryBlock;
pub use memory_depot::MemoryDepot;
pub use never_fails::NeverFails;
pub use plain_block::PlainBlock;
pub use planned_buf::{is_due, write_half};
