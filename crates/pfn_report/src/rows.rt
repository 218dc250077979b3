//! The rows of a report.

ghost use Rattle.std.specs.Prelude.{◌≡◌, ◌<◌, IfOk, OnOk, length, map};
ghost use Rattle.std.specs.List.{range_with_len};
ghost use Rattle.pager_model.specs.Lookups.{shares};
ghost use Rattle.pager_model.specs.Report.{frame_row, frame_rows, pins_on, process_row};
ghost use Rattle.vm_state.specs.History.{pager};
ghost use Rattle.pfn_report.specs.Counts.{AreFrameCounts};
ghost use Rattle.run_text.specs.Rows.{frame_view, process_view};

use crate::slots::count_slots;
use disk_trait::Block;
use run_text::{FrameRow, ProcessRow};
use std::alloc::Global;
use vm_state::State;
use vm_types::{Listed, NoMemory, Pfn, Proc};

/// The processes by number; each page in their working sets is added to the shares of its frame, and to the
/// pins of it if the page is pinned.
pub fn process_rows<B: Block>(
    alloc: Global,
    state: &State<B>,
    counts: &mut [u32],
    pins: &mut [u32],
) -> Result<Listed<ProcessRow>, NoMemory>
    requires no_shares { AreFrameCounts state.now.config.frames (λ f. 0) counts.old }
    requires no_pins { AreFrameCounts state.now.config.frames (λ f. 0) pins.old }
    ensures rows { IfOk result (λ rows. map process_view rows
        ≡ map (process_row (pager state.now)) (range_with_len 0 (length state.now.config.procs))) }
    ensures counts { OnOk result (AreFrameCounts state.now.config.frames (shares (pager state.now).valid) counts.new) }
    ensures pins { OnOk result (AreFrameCounts state.now.config.frames (pins_on (pager state.now)) pins.new) }
{
    state.run_law();
    let mut rows = Listed::new(alloc);
    for number in 0..state.config().procs.items().len() as u32 {
        let p = Proc(number);
        let count = count_slots(state, p, counts, pins);
        let status = state.status(p);
        let limit = state.limit_of(p);
        rows.push(ProcessRow {
            status,
            count,
            limit,
        })?;
    }
    Ok(rows)
}

/// A frame of the configuration, with this many shares and pins.
fn frame_row<B: Block>(state: &State<B>, f: Pfn, count: u32, pins: u32) -> FrameRow
    requires there { f.0 < state.now.config.frames }
    requires shares { count ≡ shares (pager state.now).valid f.0 }
    requires pins { pins ≡ pins_on (pager state.now) f.0 }
    ensures { frame_view result ≡ frame_row state.now.past (pager state.now) f.0 }
{
    state.run_law();
    let row = state.frame(f);
    let flight = state.flight(f);
    FrameRow {
        state: row.state,
        page: row.page,
        modify: row.modify,
        refs: u32::from(count > 0) + u32::from(flight.is_some()) + pins,
        shares: count,
    }
}

/// The frames by number, with these shares and pins.
pub fn frame_rows<B: Block>(
    alloc: Global,
    state: &State<B>,
    counts: &[u32],
    pins: &[u32],
) -> Result<Listed<FrameRow>, NoMemory>
    requires shares { AreFrameCounts state.now.config.frames (shares (pager state.now).valid) counts.now }
    requires pins { AreFrameCounts state.now.config.frames (pins_on (pager state.now)) pins.now }
    ensures { IfOk result (λ rows. map frame_view rows ≡ frame_rows state.now.config state.now.past (pager state.now)) }
{
    let mut rows = Listed::new(alloc);
    for f in 0..state.config().frames {
        let count = counts[f as usize];
        rows.push(frame_row(state, Pfn(f), count, pins[f as usize]))?;
    }
    Ok(rows)
}
