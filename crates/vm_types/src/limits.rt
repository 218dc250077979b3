//! What a machine and a trace may have at most, and how large a page is.

/// The bytes of a page, and of a block.
pub const PAGE_BYTES: u32 = 512;

/// Pages of P0 that may be mapped: its first.
pub const P0_PAGES: u32 = 4_096;

/// Pages of P1 that may be mapped: its last.
pub const P1_PAGES: u32 = 1_024;

/// Pages that one process may map, those of P0 and those of P1.
pub const PRIVATE_PAGES: u32 = 5_120;

/// Page frames of a machine.
pub const MOST_FRAMES: u32 = 16_384;

/// Page frames of a machine in version 1.
pub const MOST_FRAMES_OF_ONE: u32 = 4_096;

/// Free frames that a parameter may ask for.
pub const MOST_FREE: u32 = 4_096;

/// Modified pages that a parameter may name.
pub const MOST_MODIFIED: u32 = 16_384;

/// Blocks of the page file.
pub const MOST_BLOCKS: u32 = 16_384;

/// Sections.
pub const MOST_SECTIONS: u32 = 64;

/// Pages of all sections together.
pub const MOST_SECTION_PAGES: u32 = 16_384;

/// Processes.
pub const MOST_PROCESSES: u32 = 16;

/// Pages of a working set.
pub const MOST_EXTENT: u32 = 1_024;

/// Page frames with which references may be studied.
pub const MOST_STUDY_FRAMES: u32 = 1_024;

/// References or faults that a parameter may count.
pub const MOST_COUNTED: u32 = 100_000;

/// Pages of a read cluster.
pub const MOST_READ_CLUSTER: u32 = 8;

/// Pages of a write cluster, which are the pages that a carrier lifts at once.
pub const MOST_LIFTS: u32 = 16;

/// Calls of one block that fail.
pub const MOST_FAILS: u32 = 16;

/// Requests of a trace of version 1 or 2.
pub const MOST_REQUESTS: u32 = 100_000;

/// Requests of a long trace.
pub const MOST_LONG_REQUESTS: u32 = 8_000_000;

/// Lines of a trace of version 1 or 2.
pub const MOST_LINES: u32 = 200_000;

/// Lines of a long trace.
pub const MOST_LONG_LINES: u32 = 16_000_000;

/// Lines of a log.
pub const MOST_LOG_LINES: u32 = 16_777_216;
