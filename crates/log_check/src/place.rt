use crate::expected::Expected;
use log_rundown::Underway;

/// Where in a log the next line stands.
#[derive(Drop)]
pub(crate) enum Place {
    /// Behind entries; the report may begin.
    Entries,
    /// In the report, of which this is left, and it isn't empty.
    Report(Expected),
    /// In the rundown; the ending may begin.
    Rundown(Underway),
    /// Behind so many entries in all, in the text that ends the log, of which this is left.
    Ending(u32, Expected),
}
