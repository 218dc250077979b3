//! The plain spelling of a configuration as a trace, and the law that it is read as that configuration.
#![tactic(auto)]

mod laws;

pub use laws::the_plain_spelling_is_read;
