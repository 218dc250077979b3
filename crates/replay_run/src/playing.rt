ghost use Rattle.std.specs.Prelude.{◌≡◌, ℕ, ◌+◌, ◌<◌, ◌≤◌, [], IfOk, Some, length, slice_get, vec_capacity};
ghost use Rattle.history_lock.specs.Known.{OwnsAll};
ghost use Rattle.history_lock.specs.Passes.{numbers, passes_of};
ghost use Rattle.pager_model.specs.Order.{requests_of};
ghost use Rattle.vm_state.specs.Based.{base_of};
ghost use Rattle.replay_run.specs.Jobs.{IsPlayable};
ghost use Rattle.replay_run.specs.Workers.{AreAllJobs, AreEnded};
ghost use Rattle.replay_run.specs.Replayed.{HasPlayed};

use crate::attending::do_jobs;
use crate::jobs::{Job, make_jobs};
use crate::starting::Started;
use crate::works::all_works;
use disk_trait::Block;
use history_lock::HistoryLock;
use std::alloc::Global;
use std::snapshot::Snapshot;
use std::sync::Wait;
use std::thread;
use std::thread::Threads;
use vm_actors::Ended;
use vm_state::State;
use vm_types::{NoMemory, Request};

/// How many processes a state has.
fn process_count<B: Block>(state: &State<B>) -> u32
    ensures few { result ≤ 16 }
    ensures count { result ≡ length state.now.config.procs }
{
    state.run_law();
    state.config().procs.items().len() as u32
}

/// Does all jobs in the threads of a scope.
fn run_jobs<R: Threads + Wait + Sync, B: Block>(
    rt: &R,
    lock: &HistoryLock<State<B>>,
    of: &Snapshot<State<B>>,
    procs: u32,
    jobs: Vec<Job<B>>,
    started: Vec<Started<B>>,
) -> Ended<B>
    requires jobs { AreAllJobs lock.now (base_of of.now.value) procs jobs.items }
    requires room { procs + 2 ≤ vec_capacity started }
    requires none { started.items ≡ [] }
    ensures ended { AreEnded lock.now (base_of of.now.value) result }
    ensures all { OwnsAll (procs + 2) (numbers result.pass) }
{
    thread::scope(
        thread::scope_env(),
        rt,
        |scope| -> Ended<B>
            requires { AreAllJobs lock.now (base_of of.now.value) procs jobs.items × (procs + 2 ≤ vec_capacity started) × (started.items ≡ []) }
            ensures ended { AreEnded lock.entry.now (base_of of.entry.now.value) result }
            ensures all { OwnsAll (procs + 2) (numbers result.pass) }
        { do_jobs(rt, scope, lock, of, procs, jobs, started) },
    )
}

/// The requests of each seat of a state, in their order.
///
/// # Errors
/// `NoMemory` if memory ran out.
fn works_of<B: Block>(
    alloc: Global,
    state: &State<B>,
    procs: u32,
) -> Result<Vec<Vec<Request>>, NoMemory>
    requires few { procs ≤ 16 }
    ensures count { IfOk result (λ works. length works.items ≡ procs + 2) }
    ensures each { IfOk result (λ works. (k : ℕ) (work : _) → slice_get works.items k ≡ Some work → work.items ≡ requests_of k state.now.config.body) }
{
    all_works(alloc, &state.config().body, procs + 2)
}

/// The lock round a state that has no entries, and the jobs of its seats, the last seat's first.
///
/// # Errors
/// `NoMemory` if memory ran out.
fn deal<B: Block>(
    alloc: Global,
    state: State<B>,
    of: &Snapshot<State<B>>,
    procs: u32,
    works: Vec<Vec<Request>>,
) -> Result<(HistoryLock<State<B>>, Vec<Job<B>>), NoMemory>
    requires same { of.now.value ≡ state }
    requires playable { IsPlayable (base_of state) }
    requires first { state.past ≡ [] }
    requires few { procs ≤ 16 }
    requires procs { procs ≡ length of.now.value.config.procs }
    requires count { length works.items ≡ procs + 2 }
    requires works { (i : ℕ) (work : _) → slice_get works.items i ≡ Some work → work.items ≡ requests_of i of.now.value.config.body }
    ensures passes { IfOk result (λ made. passes_of made.0 ≡ procs + 2) }
    ensures jobs { IfOk result (λ made. AreAllJobs made.0 (base_of of.now.value) procs made.1.items) }
{
    let (lock, passes) = HistoryLock::new(alloc, state, procs + 2)?;
    let jobs = make_jobs(alloc, &lock, of, passes, works)?;
    Ok((lock, jobs))
}

/// The state that the lock had, once all workers have ended.
///
/// # Errors
/// `NoMemory` if memory ran out for one of them.
fn conclude<B: Block>(
    lock: HistoryLock<State<B>>,
    _of: &Snapshot<State<B>>,
    _procs: u32,
    ended: Ended<B>,
) -> Result<State<B>, NoMemory>
    requires playable { IsPlayable (base_of _of.now.value) }
    requires procs { _procs ≡ length _of.now.value.config.procs }
    requires passes { passes_of lock ≡ _procs + 2 }
    requires ended { AreEnded lock (base_of _of.now.value) ended }
    requires all { OwnsAll (_procs + 2) (numbers ended.pass) }
    ensures { IfOk result (HasPlayed B.tells.content (base_of _of.now.value)) }
{
    let Ended { pass, short } = ended;
    let closed = lock.close(pass);
    if short {
        return Err(NoMemory);
    }
    closed.run_law();
    Ok(closed)
}

/// As `play`, of a state that is known.
///
/// # Errors
/// `NoMemory` if memory ran out.
fn play_on<R: Threads + Wait + Sync, B: Block>(
    rt: &R,
    alloc: Global,
    state: State<B>,
    of: &Snapshot<State<B>>,
) -> Result<State<B>, NoMemory>
    requires known { of.now.value ≡ state }
    requires playable { IsPlayable (base_of state) }
    requires first { state.past ≡ [] }
    ensures { IfOk result (HasPlayed B.tells.content (base_of state)) }
{
    let procs = process_count(&state);
    let works = works_of(alloc, &state, procs)?;
    let (lock, jobs) = deal(alloc, state, of, procs, works)?;
    let started = Vec::with_capacity(alloc, procs as usize + 2)?;
    let ended = run_jobs(rt, &lock, of, procs, jobs, started);
    conclude(lock, of, procs, ended)
}

/// Runs a state by threads from its first entry on: each process's requests in their order, the modified
/// page writer and the swapper, until every request is answered. All memory that the start takes is
/// taken before the first thread.
///
/// # Errors
/// `NoMemory` if memory ran out.
pub fn play<R: Threads + Wait + Sync, B: Block>(
    rt: &R,
    alloc: Global,
    state: State<B>,
) -> Result<State<B>, NoMemory>
    requires playable { IsPlayable (base_of state) }
    requires first { state.past ≡ [] }
    ensures { IfOk result (HasPlayed B.tells.content (base_of state)) }
{
    let of = Snapshot::of(&state);
    play_on(rt, alloc, state, &of)
}
