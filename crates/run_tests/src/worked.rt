//! Runs that were worked out by hand: traces beside what `serial` writes on them.

use crate::texts::writes_texts;
use disk_trait::MemoryDepot;
use program_runs::serial_over;
use replay_cli::Status;
use std::test::Fail;
use vm_types::{BlockId, SecId};
use worked_runs::{
    ACROSS_THE_END, ACROSS_THE_END_TEXT, COPIED_PAGE, COPIED_PAGE_TEXT, COPIES, COPIES_ALONE,
    COPIES_ALONE_TEXT, COPIES_TEXT, DELETIONS, DELETIONS_TEXT, GROWING_LIMIT, GROWING_LIMIT_TEXT,
    LAST_PAGES, LAST_PAGES_TEXT, LEFT_OVER, LEFT_OVER_TEXT, LOCKS, LOCKS_TEXT, NEIGHBOURS,
    NEIGHBOURS_TEXT, OUT_AND_IN_AGAIN, OUT_AND_IN_AGAIN_TEXT, REFUSED_BY_CODE,
    REFUSED_BY_CODE_TEXT, SHARED_PAGE, SHARED_PAGE_ALONE, SHARED_PAGE_TEXT, TWO_AT_MOST,
    TWO_AT_MOST_TEXT, WAITING_FOR_A_WRITE, WAITING_FOR_A_WRITE_TEXT, WRITTEN_TOGETHER,
    WRITTEN_TOGETHER_TEXT,
};

// Clusters of reads and writes, and the limits of the modified list.
#[test]
fn reads_and_writes_clusters(rt: HostRuntime) -> Result<(), Fail> {
    let table: [(&str, &str); 4] = [
        (WRITTEN_TOGETHER, WRITTEN_TOGETHER_TEXT),
        (NEIGHBOURS, NEIGHBOURS_TEXT),
        (WAITING_FOR_A_WRITE, WAITING_FOR_A_WRITE_TEXT),
        (TWO_AT_MOST, TWO_AT_MOST_TEXT),
    ];
    writes_texts(&rt, rt.alloc(), &table)
}

// Services, and the limit that follows the faults.
#[test]
fn serves_and_adjusts(rt: HostRuntime) -> Result<(), Fail> {
    let table: [(&str, &str); 4] = [
        (DELETIONS, DELETIONS_TEXT),
        (GROWING_LIMIT, GROWING_LIMIT_TEXT),
        (LOCKS, LOCKS_TEXT),
        (ACROSS_THE_END, ACROSS_THE_END_TEXT),
    ];
    writes_texts(&rt, rt.alloc(), &table)
}

// Protection codes, the region that grows downwards, and a section whose pages are copied.
#[test]
fn reads_sections_and_codes(rt: HostRuntime) -> Result<(), Fail> {
    let table: [(&str, &str); 3] = [
        (REFUSED_BY_CODE, REFUSED_BY_CODE_TEXT),
        (LAST_PAGES, LAST_PAGES_TEXT),
        (COPIED_PAGE, COPIED_PAGE_TEXT),
    ];
    writes_texts(&rt, rt.alloc(), &table)
}

// Two processes over one section.
#[test]
fn shares_and_copies(rt: HostRuntime) -> Result<(), Fail> {
    let table: [(&str, &str); 4] = [
        (COPIES, COPIES_TEXT),
        (COPIES_ALONE, COPIES_ALONE_TEXT),
        (SHARED_PAGE, SHARED_PAGE_TEXT),
        (SHARED_PAGE_ALONE, SHARED_PAGE_TEXT),
    ];
    writes_texts(&rt, rt.alloc(), &table)
}

// The block of the copied section has its first byte and was never written; the shared section's
// block has the byte that was written to the page.
#[test]
fn leaves_the_blocks(rt: HostRuntime) -> Result<(), Fail> {
    let alloc = rt.alloc();
    let table: [(&str, u8, u64); 2] = [(COPIES, 0x11, 0), (SHARED_PAGE, 0x05, 1)];
    for (trace, first, writes) in table {
        let depot = MemoryDepot::new(alloc, Vec::new(alloc));
        let told = serial_over(alloc, trace.as_bytes(), depot)?;
        assert_eq!(rt; told.0, Status(0));
        let block = told
            .2
            .retired(BlockId::Section(SecId(0), 0))
            .ok_or("it was retired")?;
        assert_eq!(rt; (block.bytes()[0], block.writes()), (first, writes));
    }
    Ok(())
}

// Processes that leave and come back.
#[test]
fn swaps_processes(rt: HostRuntime) -> Result<(), Fail> {
    let table: [(&str, &str); 2] = [
        (OUT_AND_IN_AGAIN, OUT_AND_IN_AGAIN_TEXT),
        (LEFT_OVER, LEFT_OVER_TEXT),
    ];
    writes_texts(&rt, rt.alloc(), &table)
}
