//! The steps of which the turns of a run by threads are made: what was open lands, and then at most one step
//! of the policy, each with what it is made for. It has no functions: what it says is in `specs/`.
#![tactic(auto)]
