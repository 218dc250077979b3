//! Where a log stands in the rundown, which follows its report: each entry is judged by where the entries
//! before it stand.
#![tactic(auto)]

mod blocks;
mod choice;
mod cleaning;
mod cluster;
mod eviction;
mod expected;
mod landings;
mod listed;
mod moves;
mod onward;
mod outs;
mod places;
mod seen;
mod standing;
mod steps;
mod stops;
mod underway;
mod write;

pub use underway::Underway;
