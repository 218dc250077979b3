//! Blocks of 512 bytes that are files, and a depot that makes them in a folder.
#![tactic(auto)]

mod block;
mod depot;
mod name;

pub use block::FileBlock;
pub use depot::FileDepot;
pub use name::{file_name, names_are_one_to_one};
