ghost use Rattle.std.specs.Prelude.{◌≡◌, IfOk};
ghost use Rattle.log_model.specs.Stand.{report_after};
ghost use Rattle.shadow_pager.specs.Shown.{shown};
ghost use Rattle.log_report.specs.ShownRun.{ShowsRun};

use crate::recounting::recount;
use outside_io::VecSink;
use run_text::print;
use shadow_history::ShadowHistory;
use shadow_pager::ShadowPager;
use std::alloc::Global;
use vm_types::NoMemory;

/// The text of the report that stands behind a log's entries.
///
/// # Errors
/// `NoMemory` if out of memory.
pub fn report_text(
    alloc: Global,
    past: &ShadowHistory<'_>,
    pager: &ShadowPager,
) -> Result<Vec<u8>, NoMemory>
    requires { ShowsRun past.now.config past.now.past (shown pager.now) }
    ensures { IfOk result (λ text. text.items ≡ report_after past.now.config past.now.past) }
{
    let report = recount(alloc, past, pager)?;
    let mut sink = VecSink::new(alloc);
    match print(&report, past.config().sections.items(), &mut sink) {
        Ok(()) => Ok(sink.into_bytes()),
        Err(_) => Err(NoMemory),
    }
}
