//! The first of some words, and the words behind a command's name, if they are options that each have a value.
#![tactic(auto)]

mod options;
mod words;

pub use options::option_values;
pub use words::first_word;
