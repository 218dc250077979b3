ghost use Rattle.std.specs.Prelude.{◌≡◌, ℕ, ◌<◌, ◌++◌, ◌||◌, Contains, length};
ghost use Rattle.history_lock.specs.Passes.{numbers};
ghost use Rattle.history_lock.specs.declared.pass.Pass.{Pass};
ghost use Rattle.vm_state.specs.Based.{base_of};
ghost use Rattle.vm_state.specs.History.{History};
ghost use Rattle.vm_state.specs.declared.base.StateBase.{StateBase};
ghost use Rattle.replay_run.specs.Jobs.{IsEndedOf};
ghost use Rattle.replay_run.specs.Workers.{AreEnded, AreWorkers, IsStarted};

use crate::last::take_last;
use crate::starting::Started;
use disk_trait::Block;
use history_lock::HistoryLock;
use std::snapshot::Snapshot;
use std::sync::Wait;
use std::thread::Threads;
use vm_actors::Ended;
use vm_state::State;

/// Waits until a worker has ended.
fn end_one<R: Threads + Wait + Sync, B: Block>(rt: &R, started: Started<B>) -> Ended<B>
    ensures { (old : Pass History StateBase) → IsStarted old started → IsEndedOf old result }
{
    match started {
        Started::Running(handle) => handle.join(rt),
        Started::Done(ended) => ended,
    }
}

/// Whether memory ran out for one of two workers.
fn either(first: bool, second: bool) -> bool
    ensures { result ≡ (first || second) }
{
    first || second
}

/// Makes two ends one.
fn join_ends<B: Block>(
    lock: &HistoryLock<State<B>>,
    _of: &Snapshot<State<B>>,
    first: Ended<B>,
    second: Ended<B>,
) -> Ended<B>
    requires first { AreEnded lock.now (base_of _of.now.value) first }
    requires second { AreEnded lock.now (base_of _of.now.value) second }
    ensures ended { AreEnded lock.now (base_of _of.now.value) result }
    ensures numbers { numbers result.pass ≡ numbers first.pass ++ numbers second.pass }
{
    let Ended { mut pass, short } = first;
    let any = either(short, second.short);
    lock.absorb(&mut pass, second.pass);
    Ended { pass, short: any }
}

/// Waits until the workers of the first seats have ended, of which there is at least one.
pub(crate) fn end_all<R: Threads + Wait + Sync, B: Block>(
    rt: &R,
    lock: &HistoryLock<State<B>>,
    of: &Snapshot<State<B>>,
    mut started: Vec<Started<B>>,
) -> Ended<B>
    requires some_worker { 0 < length started.items }
    requires workers { AreWorkers lock.now (base_of of.now.value) started.items }
    ensures ended { AreEnded lock.now (base_of of.now.value) result }
    ensures all { (k : ℕ) → k < length started.items → Contains (numbers result.pass) k }
{
    let first = take_last(&mut started);
    let mut all = end_one(rt, first);
    while let Some(next) = started.pop() {
        let ended = end_one(rt, next);
        all = join_ends(lock, of, all, ended);
    }
    all
}
