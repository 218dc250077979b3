//! Input and output: a source and a sink of bytes that count their faults, the write of a whole
//! text, both in memory and over std's readers and writers, and the lines of a source one after
//! another.
#![tactic(auto)]

mod calls;
mod front;
mod lines;
mod memory_sink;
mod memory_source;
mod sink;
mod source;
mod std_sink;
mod std_source;
mod steady_write;
mod vec_sink;
mod whole;

pub use front::keep_front;
pub use lines::{Line, Lines};
pub use memory_sink::MemorySink;
pub use memory_source::MemorySource;
pub use sink::Sink;
pub use source::{Source, read_more};
pub use std_sink::StdSink;
pub use std_source::StdSource;
pub use steady_write::SteadyWrite;
pub use vec_sink::VecSink;
pub use whole::{WriteFault, write_whole};
