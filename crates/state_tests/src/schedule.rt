//! A schedule, and how it is played.

ghost use Rattle.std.specs.Prelude.{◌≡◌, IfOk};
ghost use Rattle.vm_types.specs.Configuration.{IsWellFormed};

use arrayvec::ArrayVec;
use disk_trait::MemoryDepot;
use outside_io::MemorySource;
use seat_schedules::{Act, Played, play_schedule};
use std::alloc::Global;
use std::test::Fail;
use trace_reader::read_trace;
use vm_types::{Config, Seat};

/// A trace, the steps of a schedule, and the lines of the entries that they make.
#[derive(Clone, Copy)]
pub struct Schedule {
    pub trace: &'static [u8],
    pub steps: &'static [(Seat, Act)],
    pub lines: &'static [u8],
}

/// The configuration that a trace names.
fn config_of(alloc: Global, trace: &[u8]) -> Result<Config, Fail>
    ensures formed { IfOk result IsWellFormed }
{
    let mut source = MemorySource::new(Vec::from_slice(alloc, trace)?, Vec::new(alloc));
    match read_trace(alloc, &mut source, &mut ArrayVec::new()) {
        Ok(config) => Ok(config),
        Err(_) => Err(Fail::from("a trace")),
    }
}

/// What the steps of a schedule leave, over the blocks of a trace.
pub fn play(alloc: Global, trace: &[u8], steps: &[(Seat, Act)]) -> Result<Played, Fail> {
    let config = config_of(alloc, trace)?;
    let mut depot = MemoryDepot::new(alloc, Vec::new(alloc));
    Ok(play_schedule(alloc, config, steps, &mut depot)?)
}
