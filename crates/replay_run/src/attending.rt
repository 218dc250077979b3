ghost use Rattle.std.specs.Prelude.{◌≡◌, ℕ, ◌+◌, ◌<◌, ◌≤◌, [], Contains, vec_capacity};
ghost use Rattle.history_lock.specs.Passes.{numbers};
ghost use Rattle.vm_state.specs.Based.{base_of};
ghost use Rattle.replay_run.specs.Workers.{AreAllJobs, AreEnded};

use crate::ending::end_all;
use crate::jobs::Job;
use crate::starting::{Started, start_one};
use disk_trait::Block;
use history_lock::HistoryLock;
use std::snapshot::Snapshot;
use std::sync::Wait;
use std::thread::{Scope, Threads};
use vm_actors::Ended;
use vm_state::State;

/// Does all jobs: starts their workers, those of the processes first, and waits until all have ended.
pub(crate) fn do_jobs<'s, E: 's, R: Threads + Wait + Sync + 's, B: Block + 's>(
    rt: &'s R,
    scope: &'s Scope<'s, E>,
    lock: &'s HistoryLock<State<B>>,
    of: &'s Snapshot<State<B>>,
    procs: u32,
    mut jobs: Vec<Job<B>>,
    mut started: Vec<Started<B>>,
) -> Ended<B>
    requires jobs { AreAllJobs lock.now (base_of of.now.value) procs jobs.items }
    requires room { procs + 2 ≤ vec_capacity started }
    requires none { started.items ≡ [] }
    ensures ended { AreEnded lock.now (base_of of.now.value) result }
    ensures all { (k : ℕ) → k < procs + 2 → Contains (numbers result.pass) k }
{
    while let Some(job) = jobs.pop() {
        started.push_reserved(start_one(rt, scope, lock, procs, job));
    }
    end_all(rt, lock, of, started)
}
