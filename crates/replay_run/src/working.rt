ghost use Rattle.replay_run.specs.Jobs.{IsEndedOf, IsIdleJob, IsJobAmong, IsProcessJob};

use crate::jobs::Job;
use crate::nap::Nap;
use disk_trait::Block;
use history_lock::HistoryLock;
use std::sync::Wait;
use vm_actors::{Doing, Ended, idle_worker, process_worker};
use vm_state::State;
use vm_types::Proc;

/// Does the job of a process.
fn ask<W: Wait + Sync, B: Block>(rt: &W, lock: &HistoryLock<State<B>>, job: Job<B>) -> Ended<B>
    requires { IsProcessJob lock.now job }
    ensures { IsEndedOf job.pass result }
{
    let Job {
        pass,
        carrier,
        work,
    } = job;
    let p = Proc(carrier.seat().0);
    process_worker(rt, lock, pass, carrier, p, &work, Nap { rt })
}

/// Does the job of the modified page writer, or of the swapper.
fn idle<W: Wait + Sync, B: Block>(
    rt: &W,
    lock: &HistoryLock<State<B>>,
    job: Job<B>,
    doing: Doing,
) -> Ended<B>
    requires { IsIdleJob lock.now job doing }
    ensures { IsEndedOf job.pass result }
{
    let Job { pass, carrier, .. } = job;
    idle_worker(rt, lock, pass, carrier, doing, Nap { rt })
}

/// Does a job: that of a process, whose number is below the number of processes, of the modified page
/// writer, who has the next number, or of the swapper.
#[tactic(auto, using(crate::proofs::JobKinds::of_process, crate::proofs::JobKinds::of_writer, crate::proofs::JobKinds::of_swapper))]
pub(crate) fn work<W: Wait + Sync, B: Block>(
    rt: &W,
    lock: &HistoryLock<State<B>>,
    procs: u32,
    job: Job<B>,
) -> Ended<B>
    requires { IsJobAmong procs lock.now job }
    ensures { IsEndedOf job.pass result }
{
    let k = job.carrier.seat().0;
    if k < procs {
        ask(rt, lock, job)
    } else if k == procs {
        idle(rt, lock, job, Doing::Writing)
    } else {
        idle(rt, lock, job, Doing::Swapping)
    }
}
