//! The serial policy: what a call of the pager's logic gives, the moves and their order, and the
//! rundown. It has no functions: what it says is in `specs/`, and the laws of it are proved in the crates
//! above.
#![tactic(auto)]
