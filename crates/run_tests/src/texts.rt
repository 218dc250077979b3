//! Traces beside what `serial` writes on them.

use program_runs::serial;
use replay_cli::Status;
use std::alloc::Global;
use std::process::Abort;
use std::test::Fail;

// Each trace's run writes the text beside it, and ends with status 0.
pub(super) fn writes_texts(
    rt: &impl Abort,
    alloc: Global,
    table: &[(&str, &str)],
) -> Result<(), Fail> {
    for (trace, text) in table {
        let told = serial(alloc, trace.as_bytes())?;
        assert_eq!(rt; told.0, Status(0));
        assert_eq!(rt; told.1.as_slice(), text.as_bytes());
    }
    Ok(())
}
