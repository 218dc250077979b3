ghost use Rattle.replay_run.specs.Jobs.{IsEndedOf, IsJobAmong};
ghost use Rattle.replay_run.specs.Workers.{IsStarted};

use crate::jobs::Job;
use crate::working::work;
use disk_trait::Block;
use history_lock::{HistoryLock, Pass};
use std::snapshot::Snapshot;
use std::sync::Wait;
use std::thread::{Promise, PromisedHandle, Scope, Threads};
use vm_actors::Ended;
use vm_state::State;

/// The pass that a worker was given.
#[derive(Drop)]
pub(crate) struct Sent<B: Block>(pub(crate) Snapshot<Pass<State<B>>>);

impl<B: Block> Promise<Ended<B>> for Sent<B> {
    ghost use Rattle.replay_run.specs.Jobs.{IsEndedOf};

    ghost kept_by = { λ sent ended. IsEndedOf sent.0.value ended };
}

/// A worker that has a thread of its own, or, where none could be made, has worked already.
#[derive(Drop)]
pub(crate) enum Started<B: Block> {
    /// It has a thread.
    Running(PromisedHandle<Ended<B>, Sent<B>>),
    /// It has worked.
    Done(Ended<B>),
}

/// Starts a worker in a thread of the scope; where no thread can be made it works here.
pub(crate) fn start_one<'s, E: 's, R: Threads + Wait + Sync + 's, B: Block + 's>(
    rt: &'s R,
    scope: &'s Scope<'s, E>,
    lock: &'s HistoryLock<State<B>>,
    procs: u32,
    job: Job<B>,
) -> Started<B>
    requires { IsJobAmong procs lock.now job }
    ensures { IsStarted job.pass result }
{
    let sent = Sent(Snapshot::of(&job.pass));
    let run = move || -> Ended<B>
        requires { IsJobAmong procs lock.now job }
        ensures { IsEndedOf job.pass result }
    { work(rt, lock, procs, job) };
    match scope.spawn_with(sent, run) {
        Ok(handle) => Started::Running(handle),
        Err(refused) => Started::Done((refused.value)()),
    }
}
