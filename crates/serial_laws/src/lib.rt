//! Laws on the serial policy's table of moves: between two moves the policy is where it fits the past, it
//! rests only where no request is left, and what it refuses and turns is legal. No code.
#![tactic(auto)]

mod laws;
mod refusals;

pub use laws::{
    first_control_fits, made_moves_are_legal, moves_add_entries, moves_keep, refusal_is_legal,
    rests_at_the_end, task_is_formed,
};
pub use refusals::{alone_finds_a_page, failed_carriers_are_lost, failures_refuse_once};
