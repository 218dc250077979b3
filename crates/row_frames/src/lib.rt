//! Why an entry of a log isn't a legal next one, if it isn't: the rows of transfers (IN, OUT, INOK, INFAIL, OUTOK,
//! OUTFAIL), and those by which a page gives up its frame, is made of zeros, comes back, meets a read, or
//! leaves a working set (REUSE, ZERO, BACK, COLLIDE, EVICT).
#![tactic(auto)]

mod blocks;
mod collide;
mod evictions;
mod holding;
mod landings;
mod pages;
mod reads;
mod writes;

pub use collide::{Collision, collide_fails};
pub use evictions::{Eviction, evict_fails};
pub use landings::{bad_landing_fails, good_landing_fails};
pub use pages::{back_fails, reuse_fails, zero_fails};
pub use reads::in_fails;
pub use writes::out_fails;
