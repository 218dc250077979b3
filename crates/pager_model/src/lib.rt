//! The definitions that the pager is judged by: the flat machine, the pager's state, legal steps,
//! runs and soundness. It has no functions: what it says is in `specs/`, and the laws of it are
//! proved in the crates above.
#![tactic(auto)]
