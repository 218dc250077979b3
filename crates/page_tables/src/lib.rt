//! Page tables: the entry of each page that the processes have mapped.
#![tactic(auto)]

mod look;
mod packed;
mod tables;

pub use look::Look;
pub use tables::Tables;
