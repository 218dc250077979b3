ghost use Rattle.std.specs.Prelude.{◌≡◌, ◌++◌, All, IfOk, nat_eq};
ghost use Rattle.vm_text.specs.Named.{IsPrintablePage};
ghost use Rattle.run_words.specs.Text.{dirty_lines, status_line};
ghost use Rattle.command_ends.specs.Ends.{Ends};
ghost use Rattle.log_model.specs.Stand.{ending_after};
ghost use Rattle.shadow_pager.specs.Shown.{shown};
ghost use Rattle.log_report.specs.EndStatus.{end_status};
ghost use Rattle.log_report.specs.ShownRun.{ShowsRun};

use crate::dirty::dirty_pages;
use command_ends::{Status, end_with};
use outside_io::{Sink, VecSink};
use run_text::print_dirty;
use shadow_history::ShadowHistory;
use shadow_pager::ShadowPager;
use std::alloc::Global;
use vm_types::{NoMemory, Page, Section};

/// 5 if there is a dirty page, else 0.
fn end_status(dirty: &[Page]) -> u8
    ensures { result ≡ end_status dirty.now }
{
    if dirty.is_empty() { 0 } else { 5 }
}

/// Writes a line for each dirty page, and the status line. Doesn't allocate.
fn print_ending<K: Sink>(dirty: &[Page], names: &[Section], sink: &mut K) -> Status
    requires { All (IsPrintablePage names.now) dirty.now }
    ensures { Ends (K.seen sink.old) (K.seen sink.new) (end_status dirty.now)
        (dirty_lines names.now dirty.now ++ status_line (end_status dirty.now)) result.0 }
{
    match print_dirty(dirty, names, sink) {
        Err(_) => Status(4),
        Ok(()) => end_with(end_status(dirty), sink),
    }
}

/// Whether the status says that the text was cut.
fn is_cut(status: Status) -> bool
    ensures { result ≡ nat_eq status.0 4 }
{
    status.0 == 4
}

/// The text that stands behind the last entry of a log: a line for each page of a shared section that
/// is still held with modify set, and the status line.
///
/// # Errors
/// `NoMemory` if out of memory.
pub fn ending_text(
    alloc: Global,
    past: &ShadowHistory<'_>,
    pager: &ShadowPager,
) -> Result<Vec<u8>, NoMemory>
    requires { ShowsRun past.now.config past.now.past (shown pager.now) }
    ensures { IfOk result (λ text. text.items ≡ ending_after past.now.config past.now.past) }
{
    let config = past.config();
    let dirty = dirty_pages(alloc, config, pager)?;
    let mut sink = VecSink::new(alloc);
    let status = print_ending(dirty.as_slice(), config.sections.items(), &mut sink);
    if is_cut(status) {
        return Err(NoMemory);
    }
    Ok(sink.into_bytes())
}
