//! The global page table: the frame of each section page, and how many processes' entries name it.
#![tactic(auto)]

mod globals;

pub use globals::Globals;
