//! The rows and the counts of a report, off the state that a log's entries lead to.

ghost use Rattle.std.specs.Prelude.{◌≡◌, ◌+◌, ◌<◌, ◌≤◌, ◌^◌, IfOk, length, map, nat_lt, if◌then◌else◌};
ghost use Rattle.std.specs.List.{range_with_len};
ghost use Rattle.pager_model.specs.Report.{frame_row, frame_rows, process_row, report_of};
ghost use Rattle.run_text.specs.Rows.{frame_view, process_view};
ghost use Rattle.shadow_pager.specs.Shown.{shown};
ghost use Rattle.log_report.specs.ShownRun.{ShowsRun};

use run_text::{FrameRow, ProcessRow, Report, count_states};
use shadow_history::ShadowHistory;
use shadow_pager::ShadowPager;
use std::alloc::Global;
use vm_types::{Listed, NoMemory, Pfn, Proc};

/// A count that is small, in fewer bits.
fn narrowed(count: usize) -> u32
    requires { count < 2 ^ 32 }
    ensures { result ≡ count }
{
    count as u32
}

/// The references to a frame with these shares, open transfers and pins: one for its valid entries
/// together, one for each transfer, and one for each pin.
fn refs(shares: u32, flights: u32, pins: u32) -> u32
    requires flights { flights ≤ 1 }
    requires pins { pins < 2 ^ 31 }
    ensures { result ≡ ((if nat_lt 0 shares then 1 else 0) + flights) + pins }
{
    if 0 < shares {
        1 + flights + pins
    } else {
        flights + pins
    }
}

/// A frame as the report has it.
fn frame_row(past: &ShadowHistory<'_>, pager: &ShadowPager, f: Pfn) -> FrameRow
    requires { ShowsRun past.now.config past.now.past (shown pager.now) }
    ensures { frame_view result ≡ frame_row past.now.past (shown pager.now).pager f.0 }
{
    let shares = narrowed(pager.shares(f));
    let flights = narrowed(past.flights_on(f));
    let pins = narrowed(pager.pins(f));
    FrameRow {
        state: pager.state(f),
        page: pager.page(f),
        modify: pager.is_modified(f),
        refs: refs(shares, flights, pins),
        shares,
    }
}

/// The frames by number.
fn frame_rows(
    alloc: Global,
    past: &ShadowHistory<'_>,
    pager: &ShadowPager,
) -> Result<Listed<FrameRow>, NoMemory>
    requires { ShowsRun past.now.config past.now.past (shown pager.now) }
    ensures { IfOk result (λ rows. map frame_view rows ≡ frame_rows past.now.config past.now.past (shown pager.now).pager) }
{
    let mut rows = Listed::new(alloc);
    for f in 0..past.config().frames {
        rows.push(frame_row(past, pager, Pfn(f)))?;
    }
    Ok(rows)
}

/// A process as the report has it.
fn process_row(pager: &ShadowPager, p: Proc) -> ProcessRow
    requires { p.0 < (shown pager.now).processes }
    ensures { process_view result ≡ process_row (shown pager.now).pager p.0 }
{
    ProcessRow {
        status: pager.status(p),
        count: pager.ring(p).filled(),
        limit: pager.limit_of(p),
    }
}

/// The processes by number.
fn process_rows(
    alloc: Global,
    pager: &ShadowPager,
    count: u32,
) -> Result<Listed<ProcessRow>, NoMemory>
    requires { count ≤ (shown pager.now).processes }
    ensures { IfOk result (λ rows. map process_view rows ≡ map (process_row (shown pager.now).pager) (range_with_len 0 count)) }
{
    let mut rows = Listed::new(alloc);
    for p in 0..count {
        rows.push(process_row(pager, Proc(p)))?;
    }
    Ok(rows)
}

/// The report after a log's entries, counted anew. Looks at each valid entry once for each frame.
///
/// # Errors
/// `NoMemory` if out of memory.
pub(crate) fn recount(
    alloc: Global,
    past: &ShadowHistory<'_>,
    pager: &ShadowPager,
) -> Result<Report, NoMemory>
    requires { ShowsRun past.now.config past.now.past (shown pager.now) }
    ensures { IfOk result (λ report. report ≡ report_of past.now.config past.now.past (shown pager.now).pager) }
{
    let config = past.config();
    let frames = frame_rows(alloc, past, pager)?;
    let states = count_states(alloc, frames.items())?;
    let procs = config.procs.items().len() as u32;
    let processes = process_rows(alloc, pager, procs)?;
    let charged = narrowed(pager.charged_pages());
    let assigned = narrowed(pager.assigned_blocks());
    Ok(Report {
        at: past.count(),
        states,
        frames,
        size: config.pagefile,
        charged,
        assigned,
        processes,
    })
}
