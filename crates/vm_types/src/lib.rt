//! The words of the model: addresses, pages, blocks, references, services, configurations.
#![tactic(auto)]

mod access;
mod address;
mod behind;
mod block_order;
mod body;
mod config;
mod faults;
mod in_tables;
mod kinds;
pub mod limits;
mod listed;
mod names;
mod pool_name;
mod reference;
mod reply;
mod ring_choice;
mod same;
mod service;
mod short;

pub use access::allowed;
pub use address::split;
pub use behind::origin_after;
pub use block_order::{if_next, is_next_block};
pub use body::Body;
pub use config::{
    Config, Fails, Mapping, Origin, Params, ProcSpec, Section, SectionKind, Task, Version,
};
pub use faults::{Failed, NoMemory};
pub use in_tables::page_place;
pub use kinds::is_shared_kind;
pub use limits::{
    MOST_BLOCKS, MOST_COUNTED, MOST_EXTENT, MOST_FAILS, MOST_FRAMES, MOST_FRAMES_OF_ONE, MOST_FREE,
    MOST_LIFTS, MOST_LINES, MOST_LOG_LINES, MOST_LONG_LINES, MOST_LONG_REQUESTS, MOST_MODIFIED,
    MOST_PROCESSES, MOST_READ_CLUSTER, MOST_REQUESTS, MOST_SECTION_PAGES, MOST_SECTIONS,
    MOST_STUDY_FRAMES, P0_PAGES, P1_PAGES, PAGE_BYTES, PRIVATE_PAGES,
};
pub use listed::Listed;
pub use names::{Addr, BlockId, FrameState, Page, Pfn, Proc, ProcStatus, Seat, SecId};
pub use pool_name::PoolName;
pub use reference::{Mode, Op, Ref, Width};
pub use reply::{Answer, Reply, Why};
pub use ring_choice::Choice;
pub use same::{is_same_block, is_same_page, is_same_state};
pub use service::{Request, Service};
