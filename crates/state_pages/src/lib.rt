//! What the pager's state reads and changes of single pages over its parts: a page's entry, its frame
//! and its backing, its word, its shares, its rest once no process has it, its slot, its first touch; the
//! blocks and frames that a page gets or gives back; and what the parts answer to a service.
#![tactic(auto)]

mod come_roles;
mod forgetting;
mod found;
mod marked_words;
mod pages_shown;
mod pending;
mod ranges;
mod read_starts;
mod reading;
mod resting;
mod ring_slots;
mod service_answers;
mod sharing;
mod shown;
mod touching;
mod validity;
mod writes;

pub use come_roles::any_comes;
pub use forgetting::{empty_frame, uncharge};
pub use found::{Backing, Found, OpenRead, Slot};
pub use marked_words::marked_word;
pub use pages_shown::{
    changes, found_shown, is_touched_row, is_valid, own_backing, shared_backing, shared_home,
    some_waits,
};
pub use pending::pending_by;
pub use ranges::{create_zeros, protect};
pub use read_starts::{charge_fault, count_fault, read_page};
pub use reading::{first_read, global_number, hold_page, is_paged, mapped_page};
pub use resting::{rest, uncharge_unread};
pub use ring_slots::{come_home, enter_ring, frame_slot, held_in, marked_back, turn_ring};
pub use service_answers::{lock_service, pin_service, service_answer};
pub use sharing::{hold, left_at, release, section_page, share, unshare};
pub use shown::{entry_in, frame_in, marked};
pub use touching::touch;
pub use validity::make_valid;
pub use writes::{give_block, lie_unless};
