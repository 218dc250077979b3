//! The policy as tables: what is made, case by case, in the order in which the cases count; and the laws that
//! the policy does so. No code.
#![tactic(auto)]

mod laws;

pub use laws::{
    clusters_go_by_cases, coming_goes_by_cases, leaving_goes_by_cases, moves_go_by_cases,
    references_go_by_cases, rundown_goes_by_cases, services_go_by_cases,
};
