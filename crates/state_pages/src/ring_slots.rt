ghost use Rattle.std.specs.Prelude.{◌≡◌, slice_get};
ghost use Rattle.std.specs.Option.{option_map};
ghost use Rattle.pager_model.specs.Lookups.{slot_of};
ghost use Rattle.pager_model.specs.Turn.{turned_ring};
ghost use Rattle.state_fits.specs.Changes.{page_slot};
ghost use Rattle.state_pages.specs.RingSlots.{CanComeHome, CanFault, CanTakeSlot, HasComeHome, HasFaulted, TakesSlot, held_parts, mark_back};

use state_parts::{
    ChargedPage, ChargedPages, ProcessRow, SwapPages, put_in_slot, take_slot, unlock_all,
};
use vm_types::{BlockId, Page, Proc, ProcStatus};
use working_set::Ring;

/// Gives a page its slot in the ring of its process: in that of one that comes back the slot in
/// whose swap block the page lies, else the slot that the ring offers. Returns the slot.
pub fn enter_ring(
    row: &mut ProcessRow,
    pages: &mut ChargedPages,
    swaps: &mut SwapPages,
    p: Proc,
    vpn: u32,
) -> u32
    requires { CanTakeSlot row.old.status p.0 vpn row.old pages.old swaps.old }
    ensures { TakesSlot row.old.status p.0 vpn row.old row.new pages.old pages.new swaps.old swaps.new result }
{
    match row.status {
        ProcStatus::Coming => come_home(row, pages, swaps, p, vpn),
        ProcStatus::Resident | ProcStatus::Leaving | ProcStatus::Gone => fault_in(row, vpn),
    }
}

/// The modify mark of a page that becomes valid: set if its process comes back.
pub fn marked_back(status: ProcStatus, modify: bool) -> bool
    ensures { result ≡ mark_back status modify }
{
    match status {
        ProcStatus::Coming => true,
        ProcStatus::Resident | ProcStatus::Leaving | ProcStatus::Gone => modify,
    }
}

/// The ring slot that the row of a page's frame has: 0 for a shared page.
pub fn frame_slot(page: Page, slot: u32) -> u32
    ensures { result ≡ page_slot page slot }
{
    match page {
        Page::Private(..) => slot,
        Page::Shared(..) => 0,
    }
}

/// The slot that the ring offers; the process has one fault more.
fn fault_in(row: &mut ProcessRow, vpn: u32) -> u32
    requires { CanFault row.old }
    ensures { HasFaulted vpn row.old row.new result }
{
    let slot = take_slot(&mut row.ring, row.limit, vpn);
    row.faults += 1;
    slot
}

/// The slot in whose swap block the page lies. No page lies there any more.
pub fn come_home(
    row: &mut ProcessRow,
    pages: &mut ChargedPages,
    swaps: &mut SwapPages,
    p: Proc,
    vpn: u32,
) -> u32
    requires { CanComeHome p.0 vpn row.old pages.old swaps.old }
    ensures { HasComeHome p.0 vpn row.old row.new pages.old pages.new swaps.old swaps.new result }
{
    let page = Page::Private(p, vpn);
    let kept = pages.at(page).unwrap();
    let Some(BlockId::Swap(_, slot)) = kept.lies else {
        unreachable!();
    };
    put_in_slot(&mut row.ring, slot, vpn);
    pages.set(page, Some(ChargedPage { lies: None, ..kept }));
    swaps.set(p, slot, None);
    slot
}

/// The ring of a process whose status turns.
pub fn turn_ring(ring: &mut Ring, status: ProcStatus)
    ensures { ring.new ≡ turned_ring status ring.old }
{
    if let ProcStatus::Leaving = status {
        unlock_all(ring);
    }
}

/// The page number in a slot (any number), and whether it is locked, and pinned; none if the slot is
/// empty, or isn't there.
pub fn held_in(ring: &Ring, n: u32) -> Option<(u32, bool, bool)>
    ensures { result ≡ option_map held_parts (slot_of (slice_get ring.now.slots n)) }
{
    if n >= ring.slots() {
        return None;
    }
    let vpn = ring.at(n)?;
    Some((vpn, ring.is_locked(n), ring.pinned(n)))
}
