//! The program: the process's words, standard input, standard output, standard error and a depot in
//! memory, handed to `run_and_explain`; and the system's words, if input or output failed.
#![tactic(auto)]

use command_calls::CallEnds;
use disk_trait::MemoryDepot;
use outside_io::{StdSink, StdSource};
use program_call::{EnvArguments, run_and_explain};
use std::io::{Input, Write};
use std::process::ExitCode;

fn main(rt: HostRuntime) -> ExitCode {
    let mut arguments = EnvArguments::new(&rt);
    let mut messages = StdSink::new(rt.stderr());
    let mut ends = CallEnds {
        source: StdSource::new(rt.reader()),
        output: StdSink::new(rt.stdout()),
        depot: MemoryDepot::new(rt.alloc(), Vec::new(rt.alloc())),
    };
    let status = run_and_explain(&rt, rt.alloc(), &mut arguments, &mut ends, &mut messages);
    let error = match status.0 {
        3 => ends.source.error(),
        4 => ends.output.error(),
        _ => None,
    };
    if let Some(error) = error {
        let _ = writeln!(rt.stderr(), "neqysbar: {error}");
    }
    ExitCode::from(status.0)
}
