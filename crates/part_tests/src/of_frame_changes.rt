ghost use Rattle.std.specs.Prelude.{◌≡◌, ◌<◌, length, IsTrue, Some};
ghost use Rattle.pfn_database.specs.Rows.{uncounted};

use frame_changes::{
    begin_read, begin_write, count_pin, end_read, end_read_free, end_write, enter, fail_read, leave,
};
use pfn_database::{ListName, Pfns, Row};
use std::test::Fail;
use vm_types::FrameState::{
    Active, Bad, Free, Modified, ReadError, Reading, ReleasePending, Writing,
};
use vm_types::{FrameState, Page, Pfn, Proc};

const PAGE: Page = Page::Private(Proc(0), 16);

/// A move of a frame, for the page.
#[derive(Clone, Copy, Debug)]
enum Move {
    BeginRead,
    EndRead(u32, bool),
    EndReadFree,
    FailRead,
    Enter(u32, bool),
    Leave(bool),
    BeginWrite,
    EndWrite(bool),
    Pin,
    Unpin,
}

use Move::*;

/// Whether the page is being read into the frame of this row.
fn is_read(row: Row) -> bool
    ensures state { IsTrue result → row.state ≡ FrameState.Reading }
    ensures flights { IsTrue result → row.flights ≡ 1 }
    ensures page { IsTrue result → row.page ≡ Some PAGE }
{
    row.state == Reading && row.flights == 1 && row.page == Some(PAGE)
}

/// Whether a pin of the page in the frame of this row is counted.
fn is_pinned(row: Row) -> bool
    ensures { IsTrue result → 0 < uncounted row }
{
    row.shares > 0 && row.refs > 1 && row.refs - 1 > row.flights
}

/// Makes a move of a frame if its conditions hold. Returns whether they do.
fn make(frames: &mut Pfns, f: Pfn, one: Move) -> bool
    requires { f.0 < length frames.old.rows }
    ensures { length frames.new.rows ≡ length frames.old.rows }
{
    let row = frames.row(f);
    match (one, row.state) {
        (BeginRead, _) if frames.list_head(ListName::Free) == Some(f) && row.page.is_none() => {
            begin_read(frames, f, PAGE);
        }
        (EndRead(slot, modify), _) if is_read(row) => end_read(frames, f, PAGE, slot, modify),
        (EndReadFree, _) if is_read(row) => end_read_free(frames, f),
        (FailRead, _) if is_read(row) => fail_read(frames, f),
        (_, Bad | ReadError) => return false,
        (Enter(slot, modify), _)
            if row.shares < 2 && (row.page.is_none() || row.page == Some(PAGE)) => {
            enter(frames, f, PAGE, slot, modify);
        }
        (Leave(pinned), Active) if row.shares > 0 && (!pinned || is_pinned(row)) => {
            leave(frames, f, row, pinned);
        }
        (Pin, Active) if row.refs < 9 => count_pin(frames, f, true),
        (Unpin, Active) if is_pinned(row) => count_pin(frames, f, false),
        (BeginWrite, Active | Modified) if row.flights == 0 => begin_write(frames, f),
        (EndWrite(failed), Active | Writing | ReleasePending) if row.flights == 1 => end_write(
            frames, f, failed,
        ),
        _ => return false,
    }
    true
}

/// Whether the free list has these frames, from its head on.
fn are_free(frames: &Pfns, numbers: &[u32]) -> bool {
    let mut next = frames.list_head(ListName::Free);
    for number in numbers {
        if next != Some(Pfn(*number)) {
            return false;
        }
        next = frames.list_next(Pfn(*number));
    }
    next.is_none()
}

/// A frame and its move, and then its state, its modify mark, its references, shares, slot and
/// transfers, and the free list.
type Line = (u32, Move, FrameState, bool, [u32; 4], &'static [u32]);

const LINES: [Line; 29] = [
    (0, BeginRead, Reading, false, [1, 0, 0, 1], &[1, 2]),
    (0, EndRead(3, true), Active, true, [1, 1, 3, 0], &[1, 2]),
    (0, BeginWrite, Active, false, [2, 1, 3, 1], &[1, 2]),
    (
        0,
        Leave(false),
        ReleasePending,
        false,
        [1, 0, 0, 1],
        &[1, 2],
    ),
    (0, EndWrite(true), Modified, true, [0, 0, 0, 0], &[1, 2]),
    (0, BeginWrite, Writing, false, [1, 0, 0, 1], &[1, 2]),
    (0, Enter(5, false), Active, false, [2, 1, 5, 1], &[1, 2]),
    (0, Enter(5, true), Active, true, [2, 2, 5, 1], &[1, 2]),
    (0, Leave(false), Active, true, [2, 1, 5, 1], &[1, 2]),
    (0, EndWrite(false), Active, true, [1, 1, 5, 0], &[1, 2]),
    (0, Leave(false), Modified, true, [0, 0, 0, 0], &[1, 2]),
    (0, BeginWrite, Writing, false, [1, 0, 0, 1], &[1, 2]),
    (0, EndWrite(false), Free, false, [0, 0, 0, 0], &[1, 2, 0]),
    (1, BeginRead, Reading, false, [1, 0, 0, 1], &[2, 0]),
    (1, FailRead, ReadError, false, [0, 0, 0, 0], &[2, 0]),
    (2, BeginRead, Reading, false, [1, 0, 0, 1], &[0]),
    (2, EndReadFree, Free, false, [0, 0, 0, 0], &[0, 2]),
    (0, Enter(6, true), Active, true, [1, 1, 6, 0], &[2]),
    (0, Enter(6, false), Active, false, [1, 2, 6, 0], &[2]),
    (0, Leave(false), Active, false, [1, 1, 6, 0], &[2]),
    (0, Leave(false), Free, false, [0, 0, 0, 0], &[2, 0]),
    (0, Enter(6, true), Active, true, [1, 1, 6, 0], &[2]),
    (0, Pin, Active, true, [2, 1, 6, 0], &[2]),
    (0, Enter(6, true), Active, true, [2, 2, 6, 0], &[2]),
    (0, Pin, Active, true, [3, 2, 6, 0], &[2]),
    (0, Leave(true), Active, true, [2, 1, 6, 0], &[2]),
    (0, Unpin, Active, true, [1, 1, 6, 0], &[2]),
    (0, Pin, Active, true, [2, 1, 6, 0], &[2]),
    (0, Leave(true), Modified, true, [0, 0, 0, 0], &[2]),
];

#[test]
fn moves_frames(rt: HostRuntime) -> Result<(), Fail> {
    let mut frames = Pfns::new(rt.alloc(), 3, &[])?;
    for (number, one, state, modify, [refs, shares, slot, flights], free) in LINES {
        assert!(rt; number < 3);
        let f = Pfn(number);
        assert!(rt; make(&mut frames, f, one), "{one:?}");
        let page = Some(PAGE);
        let row = Row {
            state,
            page,
            modify,
            refs,
            shares,
            slot,
            flights,
        };
        assert_eq!(rt; frames.row(f), row, "{one:?}");
        assert!(rt; are_free(&frames, free), "{one:?}");
        let head = match state {
            Modified => Some(f),
            _ => None,
        };
        assert_eq!(rt; frames.list_head(ListName::Modified), head, "{one:?}");
    }
    Ok(())
}
