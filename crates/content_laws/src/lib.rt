//! The laws of bytes: those in buffers and blocks are the flat machine's along every run, and a transfer
//! that was begun stays right under every legal step but its landing.
#![tactic(auto)]

mod laws;

pub use laws::{
    begun_fits, blocks_are_home, carried_fits, content_stays, done_is_right, lifts_stay,
};
