//! How the parts of the state stand for the pager's state, and that each entry's changes of the parts
//! are its changes of the state.
#![tactic(auto)]
