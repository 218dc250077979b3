//! The cause of each entry: what it is made for, beside what makes it legal. It has no functions: what it says
//! is in `specs/`, and that the entries of runs have their causes is proved in the crates above.
#![tactic(auto)]
