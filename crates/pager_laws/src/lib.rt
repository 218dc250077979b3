//! The laws of the pager's model: legal steps of all sixteen kinds keep soundness, so every run is sound at each
//! of its prefixes; and what holds of each state that can be reached, and speaks of no part of it: the frame that
//! holds a page, the page of a valid entry, the length of a ring, the numbers of section pages. And what a run
//! keeps under a body with one more request.
#![tactic(auto)]

mod bodies;
mod laws;
mod lines;

pub use bodies::{bodies_change_nothing, bodies_grow, runs_stay};
pub use laws::{
    carriers_balance, counts_are_few, flat_machine_follows, flights_are_open,
    runs_are_of_configuration, runs_are_sound, steps_keep_soundness,
};
pub use lines::runs_have_lines;
