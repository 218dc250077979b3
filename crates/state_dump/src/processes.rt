//! The processes of a dump.

ghost use Rattle.std.specs.Prelude.{◌≡◌, ◌<◌, IfOk, length, map, slice_get};
ghost use Rattle.std.specs.List.{range_with_len};
ghost use Rattle.pager_model.specs.Lookups.{slot_of};
ghost use Rattle.vm_state.specs.History.{pager};
ghost use Rattle.dump_bytes.specs.Dumped.{process_of};
ghost use Rattle.dump_laws.specs.DumpAfter.{dumped_slot, process_at};

use crate::codes::status_code;
use crate::pages::entry_words;
use disk_trait::Block;
use dump_bytes::{ProcRec, SlotRec};
use std::alloc::Global;
use vm_state::State;
use vm_types::{NoMemory, Proc};

/// A slot of the working set list of a process of the configuration.
fn slot_rec<B: Block>(state: &State<B>, p: Proc, n: u32) -> SlotRec
    requires { p.0 < length state.now.config.procs }
    ensures { result ≡ dumped_slot (slot_of (slice_get ((pager state.now).ring p.0).slots n)) }
{
    state.run_law();
    match state.slot(p, n) {
        Some(slot) => SlotRec {
            filled: true,
            locked: slot.locked,
            pinned: slot.pinned,
            vpn: slot.vpn,
        },
        None => SlotRec {
            filled: false,
            locked: false,
            pinned: false,
            vpn: 0,
        },
    }
}

/// The slots of the working set list of a process of the configuration, of which there are so many.
fn slot_recs<B: Block>(
    alloc: Global,
    state: &State<B>,
    p: Proc,
    slots: u32,
) -> Result<Vec<SlotRec>, NoMemory>
    requires there { p.0 < length state.now.config.procs }
    requires slots { slots ≡ length ((pager state.now).ring p.0).slots }
    ensures { IfOk result (λ recs. recs.items ≡ map dumped_slot ((pager state.now).ring p.0).slots) }
{
    let mut recs = Vec::with_capacity(alloc, slots as usize)?;
    for n in 0..slots {
        recs.push(slot_rec(state, p, n))?;
    }
    Ok(recs)
}

/// How many slots the working set list of a process of the configuration has.
fn slot_count<B: Block>(state: &State<B>, p: Proc) -> u32
    requires { p.0 < length state.now.config.procs }
    ensures { result ≡ length ((pager state.now).ring p.0).slots }
{
    state.run_law();
    state.config().procs.items()[p.0 as usize].extent
}

/// A process of the configuration.
fn proc_rec<B: Block>(alloc: Global, state: &State<B>, p: Proc) -> Result<ProcRec, NoMemory>
    requires { p.0 < length state.now.config.procs }
    ensures { IfOk result (λ rec. process_of rec ≡ process_at (pager state.now) p.0) }
{
    let count = slot_count(state, p);
    let slots = slot_recs(alloc, state, p, count)?;
    let words = entry_words(alloc, state, p, count)?;
    let status = status_code(state.status(p));
    let hand = state.hand(p);
    let limit = state.limit_of(p);
    Ok(ProcRec {
        status,
        hand,
        limit,
        slots,
        words,
    })
}

/// The processes of the configuration by number.
pub(crate) fn proc_recs<B: Block>(alloc: Global, state: &State<B>) -> Result<Vec<ProcRec>, NoMemory>
    ensures { IfOk result (λ recs. map process_of recs.items ≡ map (process_at (pager state.now)) (range_with_len 0 (length state.now.config.procs))) }
{
    state.run_law();
    let mut recs = Vec::new(alloc);
    for number in 0..state.config().procs.items().len() as u32 {
        let rec = proc_rec(alloc, state, Proc(number))?;
        recs.push(rec)?;
    }
    Ok(recs)
}
