//! The laws that what the pager's logic makes has its cause. No code.
#![tactic(auto)]

mod laws;

pub use laws::{
    advance_is_caused, begin_is_caused, come_is_caused, landings_are_caused, leave_is_caused,
    no_frame_is_wanted, no_frame_to_come_is_wanted, serve_is_caused, stopped_leaving_is_held_up,
    stopped_reference_is_held_up, stopped_rundown_is_held_up, stopped_service_is_held_up,
    victim_is_caused,
};
