//! What schedules leave of the frames and blocks.

use crate::schedule::{Schedule, play};
use crate::schedules::{written, written_again, written_badly};
use pfn_database::Row;
use seat_schedules::{PageBlock, Played};
use std::alloc::Global;
use std::test::Fail;
use vm_types::{BlockId, FrameState, Page, Pfn, Proc};

/// The state, the modify bit and the references of the first frame; whether another frame is on the
/// modified list; the frames after the first and the last one on their lists; and the first block of
/// the page file.
#[derive(Clone, Copy, Debug, PartialEq, Eq)]
struct Left {
    state: FrameState,
    modify: bool,
    refs: u32,
    others: bool,
    next: Option<Pfn>,
    after_last: Option<Pfn>,
    block: PageBlock,
}

/// Whether a frame after the first one is on the modified list.
fn are_others_modified(frames: &[Row]) -> bool {
    for (f, row) in frames.iter().enumerate() {
        if f > 0 && matches!(row.state, FrameState::Modified) {
            return true;
        }
    }
    false
}

fn left_of(played: &Played) -> Option<Left> {
    let row = played.frames.first()?;
    Some(Left {
        state: row.state,
        modify: row.modify,
        refs: row.refs,
        others: are_others_modified(&played.frames),
        next: *played.nexts.first()?,
        after_last: *played.nexts.last()?,
        block: *played.blocks.first()?,
    })
}

/// What so many steps of a schedule leave.
fn after_steps(alloc: Global, schedule: &Schedule, count: usize) -> Result<Option<Left>, Fail> {
    let count = schedule.steps.len().min(count);
    let played = play(alloc, schedule.trace, &schedule.steps[..count])?;
    Ok(left_of(&played))
}

/// The page that is written has its block, and lies nowhere.
const OUTSIDE: PageBlock = PageBlock {
    page: Some(Page::Private(Proc(0), 0)),
    lies: None,
};

/// The page is valid while it is written, and another one is modified.
const USED: Left = Left {
    state: FrameState::Active,
    modify: true,
    refs: 2,
    others: true,
    next: None,
    after_last: None,
    block: OUTSIDE,
};

/// The page alone is modified.
const MODIFIED: Left = Left {
    state: FrameState::Modified,
    modify: true,
    refs: 0,
    others: false,
    next: None,
    after_last: None,
    block: OUTSIDE,
};

/// The page was written: its frame is the last one on the free list, after the last frame.
const WRITTEN: Left = Left {
    state: FrameState::Free,
    modify: false,
    refs: 0,
    others: false,
    next: None,
    after_last: Some(Pfn(0)),
    block: PageBlock {
        page: Some(Page::Private(Proc(0), 0)),
        lies: Some(BlockId::PageFile(0)),
    },
};

// A page that is changed while it is written, or whose write fails, stays modified until it is written
// again.
#[test]
fn a_page_stays_modified_until_it_is_written(rt: HostRuntime) -> Result<(), Fail> {
    for (schedule, count, expected) in [
        (written(), 7, USED),
        (written(), 12, MODIFIED),
        (written(), 14, WRITTEN),
        (written_badly(), 12, MODIFIED),
        (written_again(), 6, MODIFIED),
        (written_again(), 8, WRITTEN),
    ] {
        assert_eq!(rt; after_steps(rt.alloc(), &schedule, count)?, Some(expected));
    }
    Ok(())
}
