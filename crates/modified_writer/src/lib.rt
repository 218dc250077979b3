//! The modified page writer's cluster: the pages from the modified list's head on whose blocks adjoin.
#![tactic(auto)]

mod begun;
mod blocks;
mod cluster;
mod reason;
mod writer;

pub use begun::Begin;
pub use reason::Reason;
pub use writer::begin;
