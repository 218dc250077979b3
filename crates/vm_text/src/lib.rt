//! The words of pages, frames, blocks, processes, numbers, references, protection codes and states, written
//! into a buffer of 160 bytes and read back, and the names of services, written.
#![tactic(auto)]

mod names;
mod number;
mod reference;
mod service;
mod states;
mod text;

pub use names::{
    push_address, push_block, push_frame, push_page, push_place, push_process, push_seat,
    read_block, read_frame, read_page, read_page_start, read_place, read_process, read_seat,
};
pub use number::{push_count, push_decimal, push_hex, read_count, read_hex, read_number};
pub use reference::{bytes_of, push_op, push_value, push_why, read_op, read_why};
pub use service::{push_protection, push_service_name, read_protection};
pub use states::{push_mark, push_state, push_status, read_state, read_status};
pub use text::{after, cut, is, push_word};
