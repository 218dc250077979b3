//! Made traces: configurations that are drawn from a seed.
#![tactic(auto)]

mod draws;
mod machine;
mod make;

pub use make::make_trace;
