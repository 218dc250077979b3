//! What a call of the pager's logic gives is a list of legal entries, and what the serial policy gives is in
//! order: laws over the model and the policy alone, and no code.
#![tactic(auto)]

mod laws;
mod serial_order;

pub use laws::{
    advance_is_legal, begin_is_legal, come_is_legal, leave_is_legal, serve_is_legal,
    turns_are_legal,
};
pub use serial_order::serial_is_in_order;
