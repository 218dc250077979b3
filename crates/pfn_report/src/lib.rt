//! The report of the PFN database, counted anew from page tables and transfers.
#![tactic(auto)]

mod recounting;
mod rows;
mod slots;

pub use recounting::recount;
