//! The landing of a seat's carrier, and its carrying and landing in one hold; room for the entries of a move;
//! and the lemmas on entries that are made, carried and landed.
#![tactic(auto)]

mod carrier_landed;
mod carrying;
mod landing;
mod room;

pub use carrier_landed::CarrierLanded;
pub use carrying::carry_and_land;
pub use landing::land_carried;
pub use room::prepare;
