//! The text of entries, of reports and of runs, as definitions. It has no functions: what it says is in
//! `specs/`.
#![tactic(auto)]
