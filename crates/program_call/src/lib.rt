//! The whole program but its real ends: the words are copied, the command that they name is run, and
//! what the output keeps is handed on.
#![tactic(auto)]

mod arguments;
mod bytes;
mod messages;
mod program;
mod sure_block;
mod sure_depot;
mod words;

pub use arguments::{Arguments, EnvArguments, ListedArguments};
pub use bytes::{BytesSource, run_bytes, run_bytes_and_tell};
pub use messages::message_text;
pub use program::run_and_explain;
