ghost use Rattle.std.specs.Prelude.{◌≡◌, ℕ, ◌+◌, ◌^◌, ◌<◌, ◌≤◌, List, [], ◌∷◌, ◌++◌, length, slice_get, slice_index_or, All, IfOk, Some};
ghost use Rattle.history_lock.specs.Known.{OwnsAll};
ghost use Rattle.history_lock.specs.Passes.{IsIdle, IsOf, OwnsOnly, numbers};
ghost use Rattle.history_lock.specs.Values.{value_of, IsSameTurn};
ghost use Rattle.vm_journal.specs.declared.entry.Entry.{Entry};

use history_lock::{HistoryLock, Pass, Turn, lock_is_shared, pass_is_moved};
use std::alloc::Global;
use std::sync::Wait;
use std::test::*;
use std::thread;
use std::thread::Threads;
use std::time::Instant;
use vm_journal::{Entry, Journal, What};
use vm_types::{NoMemory, Seat};

// A pass with the number that it owns.
#[derive(Drop)]
struct Job {
    number: u32,
    pass: Pass<Journal>,
}

// Writes an entry of the seat, if there is memory.
fn write(turn: &mut Turn<Journal>, number: u32, count: u64)
    ensures same { IsSameTurn turn.old turn.new }
    ensures adds { (later : List Entry) × ((value_of turn.old).entries ++ later ≡ (value_of turn.new).entries) × All (λ e. (e.seat).0 ≡ number) later }
{
    let journal = turn.value_mut();
    if journal.reserve(1).is_ok() {
        journal.push(Entry {
            seat: Seat(number),
            what: What::Limit {
                n: number,
                faults: count,
            },
        });
    }
}

// Takes so many turns, and writes an entry in each.
fn take_turns<W: Wait>(rt: &W, lock: &HistoryLock<Journal>, job: Job, count: u64) -> Job
    requires { OwnsOnly lock.now job.pass job.number }
    ensures { OwnsOnly lock.now result.pass job.number }
{
    let Job { number, mut pass } = job;
    for i in 0..count {
        let mut turn = lock.enter(rt, &mut pass);
        write(&mut turn, number, i);
        lock.leave(&mut pass, turn);
    }
    Job { number, pass }
}

// Tells each pass its number. The last pass comes first.
fn number_all(
    alloc: Global,
    _lock: &HistoryLock<Journal>,
    mut passes: Vec<Pass<Journal>>,
) -> Result<Vec<Job>, NoMemory>
    requires few { length passes.items < 2 ^ 32 }
    requires each { (i : ℕ) (pass : _) → slice_get passes.items i ≡ Some pass → OwnsOnly _lock.now pass i }
    ensures count { IfOk result (λ jobs. length jobs.items ≡ length passes.items) }
    ensures each { IfOk result (λ jobs. (i : ℕ) (job : _) → slice_get jobs.items i ≡ Some job → OwnsOnly _lock.now job.pass job.number × (job.number + i + 1 ≡ length passes.items)) }
{
    let mut jobs = Vec::with_capacity(alloc, passes.len())?;
    while let Some(pass) = passes.pop() {
        let number = passes.len() as u32;
        jobs.push_reserved(Job { number, pass });
    }
    Ok(jobs)
}

// Each job takes its turns in a thread of its own.
fn run_all<R: Threads + Wait + Sync>(
    rt: &R,
    lock: &HistoryLock<Journal>,
    jobs: Vec<Job>,
    count: u64,
) -> Result<Vec<Job>, NoMemory>
    requires { (i : ℕ) (job : _) → slice_get jobs.items i ≡ Some job → OwnsOnly lock.now job.pass job.number × (job.number + i + 1 ≡ length jobs.items) }
    ensures count { IfOk result (λ done. length done.items ≡ length jobs.items) }
    ensures each { IfOk result (λ done. (i : ℕ) (job : _) → slice_get done.items i ≡ Some job → (k : ℕ) × (k + i + 1 ≡ length done.items) × OwnsOnly lock.now job.pass k) }
{
    let work = |job: Job| -> Job
        requires { OwnsOnly lock.now job.pass job.number }
        ensures { OwnsOnly lock.entry.now result.pass job.number }
    { take_turns(rt, lock, job, count) };
    Ok(thread::map_vec(rt, jobs, &work)?)
}

// One pass of all numbers.
fn absorb_all(lock: &HistoryLock<Journal>, mut jobs: Vec<Job>) -> Pass<Journal>
    requires some_job { 0 < length jobs.items }
    requires each { (i : ℕ) (job : _) → slice_get jobs.items i ≡ Some job → (k : ℕ) × (k + i + 1 ≡ length jobs.items) × OwnsOnly lock.now job.pass k }
    ensures own { IsOf lock.now result }
    ensures idle { IsIdle result }
    ensures all { OwnsAll (length jobs.items) (numbers result) }
{
    let mut pass = jobs.pop().unwrap().pass;
    while let Some(job) = jobs.pop() {
        lock.absorb(&mut pass, job.pass);
    }
    pass
}

// The journal that so many threads write, each in so many turns.
fn journal_of<R: Threads + Wait + Sync>(
    rt: &R,
    alloc: Global,
    n: u32,
    count: u64,
) -> Result<Journal, NoMemory>
    requires { 0 < n }
{
    let (lock, passes) = HistoryLock::new(alloc, Journal::new(alloc), n)?;
    lock_is_shared(&lock);
    let jobs = number_all(alloc, &lock, passes)?;
    let done = run_all(rt, &lock, jobs, count)?;
    let pass = absorb_all(&lock, done);
    pass_is_moved(&pass);
    Ok(lock.close(pass))
}

// How many entries each of eight numbers has, if each number's entries are in its own order.
fn counts(journal: &Journal) -> Option<[u64; 8]> {
    let mut next = [0; 8];
    for entry in journal.entries() {
        let at = next.get_mut(entry.seat.0 as usize)?;
        let What::Limit { n: _, faults } = entry.what else {
            return None;
        };
        if faults != *at {
            return None;
        }
        *at = faults.checked_add(1)?;
    }
    Some(next)
}

#[test]
fn each_thread_has_its_entries_in_order(rt: HostRuntime) -> Result<(), Fail> {
    let start = Instant::now(&rt)?;
    for (n, count, want) in [
        (1, 2, [2, 0, 0, 0, 0, 0, 0, 0]),
        (3, 10, [10, 10, 10, 0, 0, 0, 0, 0]),
        (8, 200, [200; 8]),
    ] {
        let journal = journal_of(&rt, rt.alloc(), n, count)?;
        assert_eq!(rt; counts(&journal), Some(want), "at {n} threads");
    }
    assert!(rt; start.elapsed(&rt)?.as_secs() < 10, "it took too long");
    let alloc = rt.alloc();
    let (_lock, passes) = HistoryLock::new(alloc, Journal::new(alloc), 1_000_000)?;
    assert_eq!(rt; passes.len(), 1_000_000);
    Ok(())
}
