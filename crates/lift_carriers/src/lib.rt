//! The lifts of a seat that are carried together, outside of the state: how they are carried, that each
//! still fits the journal, and the numbers of those that landed.
#![tactic(auto)]

mod carrier;
mod landed;

pub use carrier::{Carrier, carrier_is_moved};
pub use landed::{Landed, one_more};
