//! The journal: what each entry says, and the list of entries.
#![tactic(auto)]

mod entry;
mod journal;
mod kept;
mod past;

pub use entry::{Entry, EvictWhy, Kind, Role, What};
pub use journal::{Journal, is_answer};
pub use kept::Kept;
pub use past::Past;
