//! Why an entry of a log isn't a legal next one, if it isn't: the three rules of seats, and the rows of what
//! answers a request and of a process's limit and status (DONE, DENIED, SERVED, LIMIT, TURN). Each is decided from
//! what the entries so far say and the pager's state after them. And what other rows ask besides of a process, a
//! frame or a page.
#![tactic(auto)]

mod limits;
mod locking;
mod own;
mod processes;
mod ranges;
mod references;
mod refusals;
mod services;
mod turns;

pub use own::{empty_head_fails, is_private, own_fails, room_fails};
pub use processes::{limit_fails, turn_fails};
pub use references::{denied_fails, done_fails};
pub use refusals::refusal;
pub use services::served_fails;
pub use turns::in_turn_fails;
