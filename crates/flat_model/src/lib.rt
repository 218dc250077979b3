//! A plain flat machine that computes what the model's flat sections reply, and the answer of one
//! page by its bytes.
#![tactic(auto)]

mod behind;
mod flat;
mod laying;
mod lookups;
mod page;
mod tables;

pub use flat::Flat;
pub use page::apply;
