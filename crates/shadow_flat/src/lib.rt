//! The flat machine's replies beside the pager's state of a log: the pager has its maps and its touched pages, so
//! that only the bytes of pages are kept.
#![tactic(auto)]

mod first;
mod kept_pages;
mod page_bytes;
mod slot;

pub use page_bytes::PageBytes;
