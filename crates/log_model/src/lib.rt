//! The definition of a legal log: which line may come next after the lines before it, which line is the
//! first that may not, and that a whole log is the text of a legal run.
#![tactic(auto)]
