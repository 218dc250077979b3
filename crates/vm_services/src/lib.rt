//! The memory services: what is made for one of them, step by step, and what is answered.
#![tactic(auto)]

mod deletions;
mod evictions;
mod flights;
mod next;
mod purges;
mod ranges;
mod server;
mod slots;

pub use next::{ServeNext, ServeWhy};
pub use server::{refuse_service, serve};
