//! OUT: why a write may not begin.

ghost use Rattle.std.specs.Prelude.{◌≡◌, ◌↔◌, ◌⊎◌, ◌+◌, ◌<◌, false, true, None, Some, IfSome, IsNone, IsTrue, count_by, length, slice_get};
ghost use Rattle.vm_types.specs.Ring.{Held};
ghost use Rattle.vm_types.specs.declared.names.Page.{Page as AnyPage};
ghost use Rattle.pager_model.specs.Flights.{open_flights};
ghost use Rattle.pager_model.specs.Lookups.{IsHead, block_of, entry_of, is_owner};
ghost use Rattle.pager_model.specs.Maps.{is_paged, is_private};
ghost use Rattle.pager_model.specs.Out.{IsAnyOut, IsOut, IsOutBlock, IsOutSwap};
ghost use Rattle.pager_model.specs.Pager.{Valid};
ghost use Rattle.pager_model.specs.Transfers.{reads_on, writes_on};
ghost use Rattle.log_reasons.specs.WriteReasons.{ChangedFails, ListedFails, OutFails, OutListedFails, OutSwapFails, PrivateFails, SlotFails, out_block};
ghost use Rattle.shadow_pager.specs.Shown.{shown};

use crate::blocks::home_fails;
use log_reasons::Reason;
use row_requests::is_private;
use shadow_history::ShadowHistory;
use shadow_pager::ShadowPager;
use shadow_tables::is_paged;
use vm_types::{BlockId, Config, Page, Pfn, Proc, ProcStatus};

/// Whether a listed paged page may be written to a page file block: the one that is assigned to it
/// or, if none is, a free one.
fn is_own_block(config: &Config, pager: &ShadowPager, n: u32, page: Page) -> bool
    ensures { IsTrue result ↔ ((block_of (shown pager.now).pager.assigned page ≡ Some n)
        ⊎ ((block_of (shown pager.now).pager.assigned page ≡ None) × (n < config.now.pagefile) × (count_by (is_owner (BlockId.PageFile n)) (shown pager.now).pager.assigned ≡ 0))) }
{
    match pager.block_of(page) {
        Some(assigned) => assigned == n,
        None => n < config.pagefile && pager.owners(BlockId::PageFile(n)) == 0,
    }
}

/// Whether a page file block is the one to which a listed paged page is to be written.
fn is_paged_block(config: &Config, pager: &ShadowPager, n: u32, page: Page) -> bool
    requires { is_paged config.now page ≡ true }
    ensures { IsTrue result ↔ IsOutBlock config.now (shown pager.now).pager (BlockId.PageFile n) page }
{
    is_own_block(config, pager, n, page)
}

/// Whether the block is the one to which a listed page is to be written.
fn is_out_block(config: &Config, pager: &ShadowPager, block: BlockId, page: Page) -> bool
    ensures { IsTrue result ↔ IsOutBlock config.now (shown pager.now).pager block page }
{
    if !is_paged(config, page) {
        return pager.lies(page) == Some(block);
    }
    match block {
        BlockId::PageFile(n) => is_paged_block(config, pager, n, page),
        BlockId::Section(_, _) | BlockId::Swap(_, _) => false,
    }
}

/// The block to which a listed page is written; none where that is any free one of the page file.
fn out_block(config: &Config, pager: &ShadowPager, page: Page) -> Option<BlockId>
    ensures { result ≡ out_block config.now (shown pager.now).pager page }
{
    if !is_paged(config, page) {
        return pager.lies(page);
    }
    match pager.block_of(page) {
        None => None,
        Some(n) => Some(BlockId::PageFile(n)),
    }
}

/// Why a frame isn't the modified list's head, or its page isn't written to the block.
fn listed_fails(
    past: &ShadowHistory<'_>,
    pager: &ShadowPager,
    f: Pfn,
    block: BlockId,
) -> Option<Reason>
    ensures legal { IsNone result ↔ (IsHead (shown pager.now).pager.modified f.0
        × ((page : AnyPage) × ((shown pager.now).pager.page f.0 ≡ Some page) × IsOutBlock past.now.config (shown pager.now).pager block page)) }
    ensures said { IfSome result (ListedFails past.now.config (shown pager.now).pager f.0 block) }
{
    let config = past.config();
    if !pager.heads_modified(f) {
        return Some(Reason::NotAtModifiedHead(pager.modified_head()));
    }
    match pager.page(f) {
        None => Some(Reason::FrameIsEmpty),
        Some(page) => {
            if !is_out_block(config, pager, block, page) {
                return Some(Reason::NotItsBlock(out_block(config, pager, page)));
            }
            None
        }
    }
}

/// Why a write of the modified list's head may not begin.
fn out_listed_fails(
    past: &ShadowHistory<'_>,
    pager: &ShadowPager,
    f: Pfn,
    block: BlockId,
) -> Option<Reason>
    ensures legal { IsNone result ↔ IsOut past.now.config past.now.past (shown pager.now).pager f.0 block }
    ensures said { IfSome result (OutListedFails past.now.config past.now.past (shown pager.now).pager f.0 block) }
{
    if let Some(reason) = home_fails(past, block) {
        return Some(reason);
    }
    listed_fails(past, pager, f, block)
}

/// Why a frame holds no private page.
fn private_fails(pager: &ShadowPager, f: Pfn) -> Option<Reason>
    ensures legal { IsNone result ↔ ((page : AnyPage) × ((shown pager.now).pager.page f.0 ≡ Some page) × (is_private page ≡ true)) }
    ensures said { IfSome result (PrivateFails (shown pager.now).pager f.0) }
{
    match pager.page(f) {
        None => Some(Reason::FrameIsEmpty),
        Some(page) => {
            if !is_private(page) {
                return Some(Reason::PageIsShared);
            }
            None
        }
    }
}

/// Why the slot of a process has no page that is valid in the frame, or a pinned one.
#[tactic(auto, using(row_requests::proofs::Slots::held_there, row_requests::proofs::Slots::none_there))]
fn slot_fails(pager: &ShadowPager, p: Proc, slot: u32, f: Pfn) -> Option<Reason>
    requires { p.0 < (shown pager.now).processes }
    ensures legal { IsNone result ↔ ((held : Held) × (entry : Valid) × (slice_get ((shown pager.now).pager.ring p.0).slots slot ≡ Some (Some held))
        × (entry_of (shown pager.now).pager.valid p.0 held.vpn ≡ Some entry) × (entry.frame ≡ f.0) × (held.pinned ≡ false)) }
    ensures said { IfSome result (SlotFails (shown pager.now).pager p.0 slot f.0) }
{
    match pager.ring(p).at(slot) {
        None => Some(Reason::NotInSlot),
        Some(held) => match pager.entry(p, held.vpn()) {
            None => Some(Reason::NotInSlot),
            Some(entry) => {
                if entry.frame().0 != f.0 {
                    return Some(Reason::NotInSlot);
                }
                if held.is_pinned() {
                    return Some(Reason::PageIsPinned);
                }
                None
            }
        },
    }
}

/// Why a frame has a flight, or its page lies in the block unmodified.
fn changed_fails(
    past: &ShadowHistory<'_>,
    pager: &ShadowPager,
    f: Pfn,
    block: BlockId,
) -> Option<Reason>
    ensures legal { IsNone result ↔ ((reads_on f.0 (open_flights past.now.past) + writes_on f.0 (open_flights past.now.past) ≡ 0)
        × ((page : AnyPage) → (shown pager.now).pager.page f.0 ≡ Some page → (shown pager.now).pager.lies page ≡ Some block → (shown pager.now).pager.modify f.0 ≡ false → ⊥)) }
    ensures said { IfSome result (ChangedFails past.now.past (shown pager.now).pager f.0 block) }
{
    if past.flights_on(f) != 0 {
        return Some(Reason::FrameInFlight);
    }
    match pager.page(f) {
        None => None,
        Some(page) => {
            if pager.lies(page) == Some(block) && !pager.is_modified(f) {
                return Some(Reason::WrittenAlready);
            }
            None
        }
    }
}

/// Why a write of a leaving process's page to a swap block of it may not begin.
#[tactic(auto, using(row_requests::proofs::Slots::swap_process))]
fn out_swap_fails(
    past: &ShadowHistory<'_>,
    pager: &ShadowPager,
    f: Pfn,
    p: Proc,
    slot: u32,
) -> Option<Reason>
    requires { (shown pager.now).processes ≡ length past.now.config.procs }
    ensures legal { IsNone result ↔ IsOutSwap past.now.config past.now.past (shown pager.now).pager f.0 (BlockId.Swap p slot) }
    ensures said { IfSome result (OutSwapFails past.now.config past.now.past (shown pager.now).pager f.0 p slot) }
{
    if let Some(reason) = home_fails(past, BlockId::Swap(p, slot)) {
        return Some(reason);
    }
    if let Some(reason) = private_fails(pager, f) {
        return Some(reason);
    }
    let status = pager.status(p);
    if status != ProcStatus::Leaving {
        return Some(Reason::InOtherStatus(status));
    }
    if let Some(reason) = slot_fails(pager, p, slot, f) {
        return Some(reason);
    }
    changed_fails(past, pager, f, BlockId::Swap(p, slot))
}

/// Why a write to a swap block may not begin.
fn swap_fails(
    past: &ShadowHistory<'_>,
    pager: &ShadowPager,
    f: Pfn,
    p: Proc,
    slot: u32,
) -> Option<Reason>
    requires { (shown pager.now).processes ≡ length past.now.config.procs }
    ensures legal { IsNone result ↔ IsAnyOut past.now.config past.now.past (shown pager.now).pager f.0 (BlockId.Swap p slot) }
    ensures said { IfSome result (OutSwapFails past.now.config past.now.past (shown pager.now).pager f.0 p slot) }
{
    let reason = out_swap_fails(past, pager, f, p, slot)?;
    if out_listed_fails(past, pager, f, BlockId::Swap(p, slot)).is_none() {
        return None;
    }
    Some(reason)
}

/// Why a write may not begin.
pub fn out_fails(
    past: &ShadowHistory<'_>,
    pager: &ShadowPager,
    f: Pfn,
    block: BlockId,
) -> Option<Reason>
    requires { (shown pager.now).processes ≡ length past.now.config.procs }
    ensures legal { IsNone result ↔ IsAnyOut past.now.config past.now.past (shown pager.now).pager f.0 block }
    ensures said { IfSome result (OutFails block past.now.config past.now.past (shown pager.now).pager f.0) }
{
    match block {
        BlockId::Swap(p, slot) => swap_fails(past, pager, f, p, slot),
        BlockId::Section(_, _) | BlockId::PageFile(_) => out_listed_fails(past, pager, f, block),
    }
}
