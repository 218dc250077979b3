//! How many pages a read cluster has.
#![tactic(auto)]

mod cluster;
mod laws;

pub use cluster::choose;
pub use laws::cluster_has_one_length;
