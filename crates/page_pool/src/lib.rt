//! A pool of page buffers of 512 bytes, which are parts of one region.
#![tactic(auto)]

mod page_buf;
mod part;
mod pool;
mod region;
mod spare;
mod spare_buf;

pub use page_buf::PageBuf;
pub use pool::Pool;
pub use spare_buf::SpareBuf;
