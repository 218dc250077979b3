//! The free and the modified page list, as lists of frame numbers, kept in two link cells a frame.
#![tactic(auto)]

mod ends;
mod faults;
mod links;
mod list_name;
mod lists;

pub use faults::NoMemory;
pub use list_name::ListName;
pub use lists::Lists;
