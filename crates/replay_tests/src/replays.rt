//! Runs of `replay` over ends in memory.

use disk_trait::MemoryDepot;
use outside_io::{MemorySink, MemorySource};
use replay_cli::{CallEnds, Status, run_many};
use std::alloc::Global;
use std::sync::Wait;
use std::thread::Threads;
use vm_types::NoMemory;

/// Calls of the ends that fail, each counted from 1: reads, writes, and makes of the depot.
#[derive(Clone, Copy)]
pub struct Failing<'a> {
    pub reads: &'a [u32],
    pub writes: &'a [u32],
    pub makes: &'a [u32],
}

/// What `replay` answers and writes, at most 100,000 bytes, when it is called with these words and reads
/// this text, and the depot after it.
pub fn replayed<R: Threads + Wait + Sync>(
    rt: &R,
    alloc: Global,
    words: &[&str],
    text: &[u8],
    failing: Failing<'_>,
) -> Result<(Status, Vec<u8>, MemoryDepot), NoMemory> {
    let bytes = Vec::from_slice(alloc, text)?;
    let source = MemorySource::new(bytes, Vec::from_slice(alloc, failing.reads)?);
    let fails = Vec::from_slice(alloc, failing.writes)?;
    let mut ends = CallEnds {
        source,
        output: MemorySink::new(alloc, 100_000, fails, Vec::new(alloc))?,
        depot: MemoryDepot::new(alloc, Vec::from_slice(alloc, failing.makes)?),
    };
    let status = run_many(rt, alloc, words, &mut ends);
    let written = Vec::from_slice(alloc, ends.output.taken())?;
    Ok((status, written, ends.depot))
}

/// What `replay` answers and writes on a text, and the depot after it, if nothing outside fails but the
/// blocks at their calls.
pub fn replay<R: Threads + Wait + Sync>(
    rt: &R,
    alloc: Global,
    text: &[u8],
) -> Result<(Status, Vec<u8>, MemoryDepot), NoMemory> {
    let none = Failing {
        reads: &[],
        writes: &[],
        makes: &[],
    };
    replayed(rt, alloc, &["replay"], text, none)
}
