//! A pager that is asked one request at a time: each is put behind the body, and the serial policy moves until
//! it rests. What it made so far is the serial run of the requests so far.
#![tactic(auto)]

mod asking;
mod ending;
mod entries;
mod faults;
mod opening;
mod pager;
mod requests;
mod settling;

pub use ending::{close, finish};
pub use faults::AskFault;
pub use opening::open;
pub use pager::OpenPager;
