//! The line of an entry, with its request, service and answer: written, and read back one to one.
#![tactic(auto)]

mod entry_line;
mod entry_read;
mod parts;
mod read;
mod requests;
mod take;
mod words;

pub use entry_line::{add_line, line};
pub use entry_read::{BadLine, lines_are_one_to_one, read_line};
