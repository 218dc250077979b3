//! The tables and lists that the pager's state of a log is kept in, and how they are read and changed.
#![tactic(auto)]

mod assigned_blocks;
mod behind;
mod changes;
mod counting;
mod frame_list;
mod held;
mod held_pages;
mod laying;
mod lists;
mod lying_pages;
mod page_list;
mod page_table;
mod ring;
mod rows;
mod valid_entries;
mod valid_entry;

pub use assigned_blocks::AssignedBlocks;
pub use behind::Behind;
pub use frame_list::FrameList;
pub use held::Held;
pub use held_pages::HeldPages;
pub use laying::{clear_range, pages_of, protect_range, zero_range};
pub use lists::{
    is_of_section, is_own, is_paged, lay_at, lay_nowhere, page_behind, remove, slot_lying, slot_of,
};
pub use lying_pages::LyingPages;
pub use page_list::PageList;
pub use page_table::PageTable;
pub use ring::Ring;
pub use valid_entries::ValidEntries;
pub use valid_entry::ValidEntry;
