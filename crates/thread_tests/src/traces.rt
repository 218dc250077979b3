//! Configurations of traces.
ghost use Rattle.std.specs.Prelude.{◌≡◌, ◌<◌, IfOk, Some, length, slice_get};
ghost use Rattle.vm_types.specs.Configuration.{IsWellFormed};

use arrayvec::ArrayVec;
use outside_io::MemorySource;
use std::alloc::Global;
use std::test::Fail;
use trace_reader::read_trace;
use vm_types::{Body, Config, NoMemory, Task};

/// The configuration whose body is these lines, so many times.
pub fn repeated(alloc: Global, head: &str, lines: &str, times: u32) -> Result<Config, Fail>
    ensures { IfOk result IsWellFormed }
{
    let mut text = Vec::from_slice(alloc, head.as_bytes())?;
    for _ in 0..times {
        text.extend_from_slice(lines.as_bytes())?;
    }
    text.extend_from_slice(b"END\n")?;
    let mut source = MemorySource::new(text, Vec::new(alloc));
    match read_trace(alloc, &mut source, &mut ArrayVec::new()) {
        Ok(config) => Ok(config),
        Err(_) => Err(Fail::from("a trace")),
    }
}

/// The configuration of a trace without its last line.
pub fn config_of(alloc: Global, trace: &str) -> Result<Config, Fail>
    ensures { IfOk result IsWellFormed }
{
    repeated(alloc, trace, "", 0)
}

/// The tasks of a body, in order.
#[tactic(auto, using(crate::proofs::Tasks::one_more, crate::proofs::Tasks::all_taken))]
pub fn tasks_of(alloc: Global, body: &Body) -> Result<Vec<Task>, NoMemory>
    ensures { IfOk result (λ tasks. tasks.items ≡ body.now) }
{
    let mut tasks = Vec::new(alloc);
    for i in 0..body.len() {
        tasks.push(body.at(i))?;
    }
    Ok(tasks)
}

/// The task at a place.
pub fn task_at(body: &[Task], i: usize) -> Task
    requires { i < length body.now }
    ensures { slice_get body.now i ≡ Some result }
{
    body[i]
}
