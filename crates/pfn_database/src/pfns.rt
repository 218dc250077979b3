ghost use Rattle.std.specs.Prelude.{◌≡◌, ◌≢◌, ◌<◌, ◌+◌, ◌-◌, ◌^◌, ◌==◌, true, false, if◌then◌else◌, [], ◌∷◌, ◌++◌, length, drop, All, IfOk, IfSome, option_map, slice_get, slice_set, slice_index_or, Some};
ghost use Rattle.page_lists.specs.Lists.{list_of, without, count_of, cells_of, IsOnNone, IsNext};
ghost use Rattle.pfn_database.specs.Rows.{IsOneOf, states_in_use, FitsModify, FitsSlotIndex, bad_row, empty_row, counted_references, held, unheld, shared, unshared, state_in_transfer};
ghost use Rattle.pfn_database.specs.Kept.{joined, kept_of};
ghost use Rattle.pfn_database.specs.Frames.{row_of, lists_of, is_free, is_modified, opening, number, IsConsistent, HasRow};

use crate::kept::{Kept, joined, kept_of};
use crate::opening::{EMPTY, kept_at, list_free, opening_frames};
use crate::row::Row;
use page_lists::{ListName, Lists};
use std::alloc::Global;
use std::marker::Model;
use vm_types::{FrameState, NoMemory, Page, Pfn};

/// The PFN database of a memory: a row for each page frame, and the free and the modified page
/// list. A frame is on the free list exactly if it is Free, and on the modified list exactly if it
/// is Modified. The link cells of a frame on no list hold its share count and its ring slot.
#[derive(Debug, Drop)]
pub struct Pfns {
    kept: Vec<Kept>,
    lists: Lists,
}

impl Model for Pfns {
    ghost use Rattle.std.specs.Prelude.{◌≡◌, ◌<◌, ◌^◌, length};
    ghost use Rattle.pfn_database.specs.Frames.{Frames, IsConsistent};
    ghost use Rattle.pfn_database.specs.Kept.{rows_of};

    ghost Value = { Frames };

    ghost view = { λ s. record {
      rows = rows_of s.kept.items s.lists.cells;
      free = s.lists.free;
      modified = s.lists.modified;
    } };

    ghost invariant = { λ s. record {
      consistent : IsConsistent (record {
        rows = rows_of s.kept.items s.lists.cells;
        free = s.lists.free;
        modified = s.lists.modified;
      });
      frames : s.lists.frames ≡ length s.kept.items;
      cells : length s.lists.cells ≡ length s.kept.items;
      short : length s.kept.items < 2 ^ 32;
    } };
}

impl Pfns {
    /// The database of `frames` frames: those with a number in `bad` are bad, the others are empty
    /// and on the free list in number order.
    ///
    /// # Errors
    /// `NoMemory` if memory runs out.
    pub fn new(alloc: Global, frames: u32, bad: &[u32]) -> Result<Pfns, NoMemory>
        requires { All (λ b. b < frames) bad.now }
        ensures frames { IfOk result (λ pfns. pfns ≡ opening frames bad.now) }
        ensures consistent { IfOk result (λ pfns. IsConsistent pfns) }
    {
        let kept = opening_frames(alloc, frames, bad)?;
        match Lists::new(alloc, frames) {
            Ok(mut lists) => {
                list_free(&kept, &mut lists);
                Ok(Pfns { kept, lists })
            }
            Err(_) => Err(NoMemory),
        }
    }

    /// The row of a frame.
    pub fn row(&self, f: Pfn) -> Row
        requires { f.0 < length self.now.rows }
        ensures row { result ≡ row_of self.now f.0 }
        ensures consistent { IsConsistent self.now }
    {
        row_at(&self.kept, &self.lists, f)
    }

    /// How many frames are on a list.
    pub fn list_len(&self, l: ListName) -> u32
        ensures len { result ≡ length (list_of (lists_of self.now) l) }
        ensures consistent { IsConsistent self.now }
    {
        self.lists.len(l)
    }

    /// The first frame of a list; `None` exactly if the list is empty.
    pub fn list_head(&self, l: ListName) -> Option<Pfn>
        ensures head { option_map number result ≡ slice_get (list_of (lists_of self.now) l) 0 }
        ensures consistent { IsConsistent self.now }
    {
        match self.lists.head(l) {
            Some(f) => Some(Pfn(f)),
            None => None,
        }
    }

    /// The frame after `f` on the list that `f` is on; `None` exactly if `f` is the last there,
    /// or on no list.
    pub fn list_next(&self, f: Pfn) -> Option<Pfn>
        ensures next { IsNext (lists_of self.now) f.0 (option_map number result) }
        ensures consistent { IsConsistent self.now }
    {
        match self.lists.next(f.0) {
            Some(next) => Some(Pfn(next)),
            None => None,
        }
    }

    /// Makes a frame active that is empty or holds this page: it leaves the list that it is on, if
    /// any, holds the page and has the ring slot, which is 0 for a shared page. Its modify mark, shares
    /// and transfer stay.
    #[inline(always)]
    pub fn set_active(&mut self, f: Pfn, page: Page, slot: u32)
        requires below { f.0 < length self.old.rows }
        requires usable { ((row_of self.old f.0).state ≢ FrameState.Bad)
            × ((row_of self.old f.0).state ≢ FrameState.ReadError) }
        requires page { IfSome (row_of self.old f.0).page (λ held. held ≡ page) }
        requires slot { FitsSlotIndex (Some page) slot }
        ensures rows { self.new.rows ≡ slice_set self.old.rows f.0
            (record (row_of self.old f.0) {
              state = FrameState.Active;
              page = Some page;
              slot = slot;
            }) }
        ensures free { self.new.free ≡ without self.old.free f.0 }
        ensures modified { self.new.modified ≡ without self.old.modified f.0 }
        ensures consistent { IsConsistent self.new }
    {
        let kept = kept_at(&self.kept, f);
        take_off(&mut self.lists, kept.state, f.0);
        let (shares, _) = self.lists.cells(f.0);
        self.lists.set_cells(f.0, (shares, slot));
        self.kept[f.0 as usize] = Kept {
            state: FrameState::Active,
            page: Some(page),
            ..kept
        };
    }

    /// Begins to read a page into the empty frame at the head of the free list, which it leaves.
    pub fn set_reading(&mut self, f: Pfn, page: Page)
        requires below { f.0 < length self.old.rows }
        requires head { slice_get self.old.free 0 ≡ Some f.0 }
        requires empty { (row_of self.old f.0).page ≡ None }
        ensures rows { self.new.rows ≡ slice_set self.old.rows f.0
            (record (row_of self.old f.0) { state = FrameState.Reading; page = Some page }) }
        ensures free { self.new.free ≡ drop 1 self.old.free }
        ensures modified { self.new.modified ≡ self.old.modified }
        ensures consistent { IsConsistent self.new }
    {
        let kept = kept_at(&self.kept, f);
        let _head = self.lists.pop_head(ListName::Free);
        self.kept[f.0 as usize] = Kept {
            state: FrameState::Reading,
            page: Some(page),
            ..kept
        };
    }

    /// Puts a frame whose read failed into read error. It keeps its page.
    pub fn set_error(&mut self, f: Pfn)
        requires below { f.0 < length self.old.rows }
        requires reading { (row_of self.old f.0).state ≡ FrameState.Reading }
        ensures { HasRow self.old self.new f.0
            (record (row_of self.old f.0) { state = FrameState.ReadError }) }
    {
        let kept = kept_at(&self.kept, f);
        self.kept[f.0 as usize] = Kept {
            state: FrameState::ReadError,
            ..kept
        };
    }

    /// Empties a frame that is free, modified or in read error and has no transfer: it leaves its
    /// list, holds nothing, and is free at the head of the free list.
    #[inline(always)]
    pub fn empty_to_head(&mut self, f: Pfn)
        requires below { f.0 < length self.old.rows }
        requires state { let state = (row_of self.old f.0).state in
            IsOneOf (FrameState.Free ∷ FrameState.Modified ∷ FrameState.ReadError ∷ []) state }
        requires flights { (row_of self.old f.0).flights ≡ 0 }
        ensures rows { self.new.rows ≡ slice_set self.old.rows f.0 empty_row }
        ensures free { self.new.free ≡ f.0 ∷ without self.old.free f.0 }
        ensures modified { self.new.modified ≡ without self.old.modified f.0 }
        ensures consistent { IsConsistent self.new }
    {
        let kept = kept_at(&self.kept, f);
        take_off(&mut self.lists, kept.state, f.0);
        self.lists.push_head(ListName::Free, f.0);
        self.kept[f.0 as usize] = EMPTY;
    }

    /// Puts a frame in use with no shares and no transfer at the tail of the modified list where its
    /// modify mark is set, else at the tail of the free list. It keeps its page. In use is a frame
    /// that is active, writing, release pending or reading.
    #[inline(always)]
    pub fn settle(&mut self, f: Pfn)
        requires below { f.0 < length self.old.rows }
        requires state { IsOneOf states_in_use (row_of self.old f.0).state }
        requires shares { (row_of self.old f.0).shares ≡ 0 }
        requires flights { (row_of self.old f.0).flights ≡ 0 }
        ensures rows { let row = row_of self.old f.0 in
            self.new.rows ≡ slice_set self.old.rows f.0
            (record row {
              state = (if row.modify then FrameState.Modified else FrameState.Free);
              slot = 0;
            }) }
        ensures free { self.new.free ≡
            (if (row_of self.old f.0).modify then self.old.free else self.old.free ++ f.0 ∷ []) }
        ensures modified { self.new.modified ≡
            (if (row_of self.old f.0).modify then self.old.modified ++ f.0 ∷ [] else self.old.modified) }
        ensures consistent { IsConsistent self.new }
    {
        let kept = kept_at(&self.kept, f);
        let state = push_settled(&mut self.lists, kept.modify, f.0);
        self.kept[f.0 as usize] = Kept { state, ..kept };
    }

    /// Sets or clears the modify mark of a frame in whose state it may be so.
    pub fn mark(&mut self, f: Pfn, modify: bool)
        requires below { f.0 < length self.old.rows }
        requires state { FitsModify (row_of self.old f.0).state modify }
        ensures { HasRow self.old self.new f.0
            (record (row_of self.old f.0) { modify = modify }) }
    {
        let kept = kept_at(&self.kept, f);
        self.kept[f.0 as usize] = Kept { modify, ..kept };
    }

    /// Counts one more valid process entry for an active frame.
    pub fn share(&mut self, f: Pfn)
        requires below { f.0 < length self.old.rows }
        requires active { (row_of self.old f.0).state ≡ FrameState.Active }
        requires shares { (row_of self.old f.0).shares < 2 ^ 32 - 1 }
        ensures { HasRow self.old self.new f.0 (shared (row_of self.old f.0)) }
    {
        let row = with_share(joined(kept_at(&self.kept, f), self.lists.cells(f.0)));
        self.lists.set_cells(f.0, (row.shares, row.slot));
        self.kept[f.0 as usize] = kept_of(row);
    }

    /// Counts one valid process entry less for an active frame. The last one clears the slot, and
    /// a frame that is being written is then release pending.
    pub fn unshare(&mut self, f: Pfn)
        requires below { f.0 < length self.old.rows }
        requires active { (row_of self.old f.0).state ≡ FrameState.Active }
        requires shares { 0 < (row_of self.old f.0).shares }
        ensures { HasRow self.old self.new f.0 (unshared (row_of self.old f.0)) }
    {
        let row = without_share(joined(kept_at(&self.kept, f), self.lists.cells(f.0)));
        self.lists.set_cells(f.0, (row.shares, row.slot));
        self.kept[f.0 as usize] = kept_of(row);
    }

    /// Counts one reference of a frame more, for a pin.
    pub fn hold(&mut self, f: Pfn)
        requires below { f.0 < length self.old.rows }
        requires room { (row_of self.old f.0).refs < 2 ^ 31 }
        ensures { HasRow self.old self.new f.0 (held (row_of self.old f.0)) }
    {
        let kept = kept_at(&self.kept, f);
        self.kept[f.0 as usize] = Kept {
            refs: kept.refs + 1,
            ..kept
        };
    }

    /// Counts one reference of a frame less, for a pin: it has more than are counted for its shares
    /// and its transfer.
    pub fn unhold(&mut self, f: Pfn)
        requires below { f.0 < length self.old.rows }
        requires some { let row = row_of self.old f.0 in
            counted_references row.shares row.flights < row.refs }
        ensures { HasRow self.old self.new f.0 (unheld (row_of self.old f.0)) }
    {
        let kept = kept_at(&self.kept, f);
        self.kept[f.0 as usize] = Kept {
            refs: kept.refs - 1,
            ..kept
        };
    }

    /// Begins a transfer of a frame that is active, modified or reading. Its modify mark is
    /// cleared; a modified frame leaves its list and is writing.
    #[inline(always)]
    pub fn begin_flight(&mut self, f: Pfn)
        requires below { f.0 < length self.old.rows }
        requires state { let state = (row_of self.old f.0).state in
            IsOneOf (FrameState.Modified ∷ FrameState.Active ∷ FrameState.Reading ∷ []) state }
        requires flights { (row_of self.old f.0).flights ≡ 0 }
        ensures rows { let row = row_of self.old f.0 in
            self.new.rows ≡ slice_set self.old.rows f.0
            (record row {
              state = state_in_transfer row.state;
              modify = false;
              refs = row.refs + 1;
              flights = 1;
            }) }
        ensures free { self.new.free ≡ self.old.free }
        ensures modified { self.new.modified ≡ without self.old.modified f.0 }
        ensures consistent { IsConsistent self.new }
    {
        let kept = kept_at(&self.kept, f);
        take_off(&mut self.lists, kept.state, f.0);
        self.kept[f.0 as usize] = Kept {
            state: state_in_transfer(kept.state),
            modify: false,
            refs: kept.refs + 1,
            flights: 1,
            ..kept
        };
    }

    /// Ends the transfer of a frame. Its state stays.
    pub fn end_flight(&mut self, f: Pfn)
        requires below { f.0 < length self.old.rows }
        requires flights { (row_of self.old f.0).flights ≡ 1 }
        ensures { let row = row_of self.old f.0 in
            HasRow self.old self.new f.0 (record row { refs = row.refs - 1; flights = 0 }) }
    {
        let kept = kept_at(&self.kept, f);
        self.kept[f.0 as usize] = Kept {
            refs: kept.refs - 1,
            flights: 0,
            ..kept
        };
    }
}

/// The row of a frame.
fn row_at(kept: &Vec<Kept>, lists: &Lists, f: Pfn) -> Row
    requires below { f.0 < length kept.now.items }
    requires frames { lists.now.frames ≡ length kept.now.items }
    ensures { result
        ≡ joined (slice_index_or kept.now.items f.0 (kept_of bad_row)) (cells_of lists.now f.0) }
{
    joined(kept_at(kept, f), cells_at(lists, f.0))
}

/// The cells of a frame: zeros if it is on a list.
fn cells_at(lists: &Lists, f: u32) -> (u32, u32)
    requires { f < lists.now.frames }
    ensures { result ≡ cells_of lists.now f }
{
    match lists.on(f) {
        Some(_) => (0, 0),
        None => lists.cells(f),
    }
}

/// Takes a frame off the list of its state, if it has one.
#[inline(always)]
fn take_off(lists: &mut Lists, state: FrameState, f: u32)
    requires free { count_of lists.old.free f ≡ (if is_free state then 1 else 0) }
    requires modified { count_of lists.old.modified f ≡ (if is_modified state then 1 else 0) }
    ensures free { lists.new.free ≡ without lists.old.free f }
    ensures modified { lists.new.modified ≡ without lists.old.modified f }
    ensures frames { lists.new.frames ≡ lists.old.frames }
    ensures cells { lists.new.cells ≡ lists.old.cells }
{
    match state {
        FrameState::Free => lists.remove(ListName::Free, f),
        FrameState::Modified => lists.remove(ListName::Modified, f),
        _ => {}
    }
}

/// Puts a frame at the tail of the modified list where its page has to be written, else at the
/// tail of the free list. Returns its state.
fn push_settled(lists: &mut Lists, modify: bool, f: u32) -> FrameState
    requires below { f < lists.old.frames }
    requires on_none { IsOnNone lists.old f }
    ensures state { result ≡ (if modify then FrameState.Modified else FrameState.Free) }
    ensures free { lists.new.free ≡ (if modify then lists.old.free else lists.old.free ++ f ∷ []) }
    ensures modified { lists.new.modified ≡
        (if modify then lists.old.modified ++ f ∷ [] else lists.old.modified) }
    ensures frames { lists.new.frames ≡ lists.old.frames }
    ensures cells { lists.new.cells ≡ slice_set lists.old.cells f (0, 0) }
{
    if modify {
        lists.push_tail(ListName::Modified, f);
        return FrameState::Modified;
    }
    lists.push_tail(ListName::Free, f);
    FrameState::Free
}

/// The row once one valid entry more is for the frame.
fn with_share(row: Row) -> Row
    requires shares { row.shares < 2 ^ 32 - 1 }
    requires refs { row.refs < 2 ^ 32 - 1 }
    ensures { result ≡ shared row }
{
    Row {
        refs: if row.shares == 0 {
            row.refs + 1
        } else {
            row.refs
        },
        shares: row.shares + 1,
        ..row
    }
}

/// The row once one valid entry less is for the frame.
fn without_share(row: Row) -> Row
    requires shares { 0 < row.shares }
    requires refs { 0 < row.refs }
    ensures { result ≡ unshared row }
{
    if row.shares > 1 {
        return Row {
            shares: row.shares - 1,
            ..row
        };
    }
    Row {
        state: if row.flights == 1 {
            FrameState::ReleasePending
        } else {
            row.state
        },
        refs: row.refs - 1,
        shares: 0,
        slot: 0,
        ..row
    }
}

/// The state of a frame once a transfer has begun.
fn state_in_transfer(state: FrameState) -> FrameState
    ensures { result ≡ state_in_transfer state }
{
    match state {
        FrameState::Modified => FrameState::Writing,
        _ => state,
    }
}
