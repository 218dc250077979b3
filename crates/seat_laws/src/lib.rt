//! Laws of several seats at work on one state: what the entries of one seat leave of another seat's open
//! transfers, which reads are for a reference, and when a request may be refused whose transfers were
//! lost; and whether a reference is still to be met.
#![tactic(auto)]

mod laws;
mod unmet;

pub use laws::{
    failed_reads_are_lost, free_may_begin, invalid_is_unmet, lost_is_refused, others_stay,
    reads_are_for,
};
pub use unmet::is_unmet;
