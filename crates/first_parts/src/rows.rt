//! What is kept by frame, by process and by seat before the first entry.

ghost use Rattle.std.specs.Prelude.{◌≡◌, ◌+◌, ◌≤◌, All, IfOk, None, length, map, replicate};
ghost use Rattle.vm_types.specs.Configuration.{IsWellFormed};
ghost use Rattle.state_fits.specs.Opening.{first_row, unspoken};

use state_parts::{ProcessRow, SpokenRow};
use std::alloc::Global;
use vm_journal::Role;
use vm_types::{Config, NoMemory, ProcSpec, ProcStatus};
use working_set::Ring;

/// What is kept of a process without a spoken entry.
const UNSPOKEN: SpokenRow = SpokenRow {
    last: None,
    count: 0,
};

/// What is kept by frame, by process and by seat.
#[derive(Drop)]
pub struct FirstRows {
    pub roles: Vec<Option<Role>>,
    pub processes: Vec<ProcessRow>,
    pub spoken: Vec<SpokenRow>,
    pub busy: Vec<u32>,
}

/// Resident processes with empty rings, and no transfer and no spoken entry.
///
/// # Errors
/// `NoMemory` if out of memory.
pub fn first_rows(alloc: Global, config: &Config) -> Result<FirstRows, NoMemory>
    requires { IsWellFormed config.now }
    ensures roles { IfOk result (λ x. x.roles.items ≡ replicate config.now.frames None) }
    ensures processes { IfOk result (λ x. x.processes.items ≡ map first_row config.now.procs) }
    ensures spoken { IfOk result (λ x. x.spoken.items ≡ replicate (length config.now.procs) unspoken) }
    ensures busy { IfOk result (λ x. x.busy.items ≡ replicate (length config.now.procs + 2) 0) }
{
    let procs = config.procs.items().len();
    Ok(FirstRows {
        roles: no_roles(alloc, config.frames)?,
        processes: process_rows(alloc, config.procs.items())?,
        spoken: none_spoken(alloc, procs)?,
        busy: none_busy(alloc, procs + 2)?,
    })
}

/// The processes, resident with empty rings.
fn process_rows(alloc: Global, specs: &[ProcSpec]) -> Result<Vec<ProcessRow>, NoMemory>
    requires { All (λ s. 1 ≤ s.extent) specs.now }
    ensures { IfOk result (λ rows. rows.items ≡ map first_row specs.now) }
{
    let mut rows = Vec::new(alloc);
    for spec in specs {
        rows.push(ProcessRow {
            status: ProcStatus::Resident,
            ring: Ring::new(alloc, spec.extent)?,
            limit: spec.limit,
            references: 0,
            faults: 0,
            collided: None,
        })?;
    }
    Ok(rows)
}

/// No role for so many frames.
fn no_roles(alloc: Global, frames: u32) -> Result<Vec<Option<Role>>, NoMemory>
    ensures { IfOk result (λ v. v.items ≡ replicate frames None) }
{
    Ok(vec![in alloc; None; frames as usize]?)
}

/// No spoken entry of so many processes.
fn none_spoken(alloc: Global, procs: usize) -> Result<Vec<SpokenRow>, NoMemory>
    ensures { IfOk result (λ v. v.items ≡ replicate procs unspoken) }
{
    Ok(vec![in alloc; UNSPOKEN; procs]?)
}

/// No open transfer of so many seats.
fn none_busy(alloc: Global, seats: usize) -> Result<Vec<u32>, NoMemory>
    ensures { IfOk result (λ v. v.items ≡ replicate seats 0) }
{
    Ok(vec![in alloc; 0; seats]?)
}
