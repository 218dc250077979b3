ghost use Rattle.std.specs.Prelude.{◌≡◌, ℕ, ◌+◌, ◌<◌, ◌^◌, IfOk, Some, length, slice_get};
ghost use Rattle.pager_model.specs.Order.{requests_of};
ghost use Rattle.vm_state.specs.Based.{base_of};
ghost use Rattle.replay_run.specs.Jobs.{AreJobs, IsFresh};

use crate::last::take_last;
use disk_trait::Block;
use history_lock::{HistoryLock, Pass};
use std::alloc::Global;
use std::snapshot::Snapshot;
use vm_state::{Carrier, State};
use vm_types::{NoMemory, Request, Seat};

/// What a worker is given: its pass, which owns one number, its carrier, which is empty and of the seat
/// of that number, and the requests that it asks for.
#[derive(Drop)]
pub struct Job<B: Block> {
    pub pass: Pass<State<B>>,
    pub carrier: Carrier<B>,
    pub work: Vec<Request>,
}

/// A job for each pass, the last pass first.
///
/// # Errors
/// `NoMemory` if memory ran out.
pub(crate) fn make_jobs<B: Block>(
    alloc: Global,
    _lock: &HistoryLock<State<B>>,
    _of: &Snapshot<State<B>>,
    mut passes: Vec<Pass<State<B>>>,
    mut works: Vec<Vec<Request>>,
) -> Result<Vec<Job<B>>, NoMemory>
    requires few { length passes.items < 2 ^ 32 }
    requires seats { length passes.items ≡ length _of.now.value.config.procs + 2 }
    requires count { length works.items ≡ length passes.items }
    requires fresh { (i : ℕ) (pass : _) → slice_get passes.items i ≡ Some pass → IsFresh _lock.now (base_of _of.now.value) i pass }
    requires works { (i : ℕ) (work : _) → slice_get works.items i ≡ Some work → work.items ≡ requests_of i _of.now.value.config.body }
    ensures jobs { IfOk result (λ jobs. AreJobs _lock.now (base_of _of.now.value) (length passes.items) jobs.items) }
    ensures count { IfOk result (λ jobs. length jobs.items ≡ length passes.items) }
{
    let mut jobs = Vec::with_capacity(alloc, passes.len())?;
    while let Some(pass) = passes.pop() {
        let k = passes.len() as u32;
        let work = take_last(&mut works);
        let carrier = Carrier::new(alloc, Seat(k))?;
        jobs.push_reserved(Job {
            pass,
            carrier,
            work,
        });
    }
    Ok(jobs)
}
