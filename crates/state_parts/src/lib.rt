//! What the pager's state keeps beside its other parts: the rows of the processes, what is kept of
//! each charged page, what lies in the swap blocks, and changes of whole rings.
#![tactic(auto)]

mod charged_page;
mod charged_pages;
mod process_row;
mod ring_marks;
mod spoken_row;
mod swap_pages;

pub use charged_page::ChargedPage;
pub use charged_pages::ChargedPages;
pub use process_row::ProcessRow;
pub use ring_marks::{
    count_in, fixed_in, give_up, lock_range, locked_in, mark_pin, page_to_pin, pinned_in,
    put_in_slot, slot_of, take_slot, unlock_all, unpinned,
};
pub use spoken_row::SpokenRow;
pub use swap_pages::SwapPages;
