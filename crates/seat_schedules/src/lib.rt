//! Schedules of seats: each step is a call of one seat, and transfers of several seats are open at once.
#![tactic(auto)]

mod act;
mod asks;
mod landing;
mod lines;
mod page_block;
mod played;
mod refusing;
mod schedule;
mod swaps;
mod went;
mod work;
mod worker;

pub use act::Act;
pub use page_block::PageBlock;
pub use played::{Played, play_schedule};
pub use schedule::{play, take};
pub use went::Went;
pub use worker::{Worker, all_workers};
