//! The dump of a pager's state: its layout, written and read back.
#![tactic(auto)]

mod dump;
mod fault;
mod fill;
mod laws;
mod left;
mod lists;
mod read;
mod reading;
mod room;
mod rows;
mod text;
mod whole;
mod write;

pub use dump::{Dump, FrameRec, ProcRec, SlotRec};
pub use fault::DumpFault;
pub use laws::each_input_has_one_answer;
pub use read::read_dump;
pub use write::write_dump;
