//! Seats at the lock round a state that has no entries.
ghost use Rattle.std.specs.Prelude.{◌≡◌, ℕ, ◌+◌, ◌<◌, ◌^◌, [], ◌∷◌, ◌++◌, IfOk, Some, length, slice_get};
ghost use Rattle.replay_run.specs.Jobs.{IsFresh, IsPlayable};
ghost use Rattle.thread_tests.specs.Desks.{IsSeated};
ghost use Rattle.vm_actors.specs.Doings.{MayAsk};
ghost use Rattle.vm_state.specs.Based.{base_of};

use disk_trait::Block;
use history_lock::{HistoryLock, Pass};
use replay_run::take_last;
use seat_turns::Spoken;
use std::alloc::Global;
use std::snapshot::Snapshot;
use std::sync::Wait;
use vm_actors::{Doing, Open, work_once};
use vm_journal::Entry;
use vm_state::{Carrier, State};
use vm_types::{NoMemory, Seat, Task};

/// What a seat has at the lock: its pass, and its carrier.
#[derive(Drop)]
pub struct Desk<B: Block> {
    pub pass: Pass<State<B>>,
    pub carrier: Carrier<B>,
}

/// The desk of the last pass.
pub fn last_desk<B: Block>(
    alloc: Global,
    _lock: &HistoryLock<State<B>>,
    _of: &Snapshot<State<B>>,
    passes: &mut Vec<Pass<State<B>>>,
) -> Result<Desk<B>, NoMemory>
    requires few { length passes.old.items < 2 ^ 32 }
    requires some_pass { 0 < length passes.old.items }
    requires fresh { (i : ℕ) (pass : _) → slice_get passes.old.items i ≡ Some pass → IsFresh _lock.now (base_of _of.now.value) i pass }
    ensures left { length passes.new.items + 1 ≡ length passes.old.items }
    ensures fresh { (i : ℕ) (pass : _) → slice_get passes.new.items i ≡ Some pass → IsFresh _lock.now (base_of _of.now.value) i pass }
    ensures seat { IfOk result (λ desk. (desk.carrier.seat).0 ≡ length passes.new.items) }
    ensures seated { IfOk result (λ desk. IsSeated _lock.now (base_of _of.now.value) desk.pass desk.carrier) }
{
    let pass = take_last(passes);
    let carrier = Carrier::new(alloc, Seat(passes.len() as u32))?;
    Ok(Desk { pass, carrier })
}

/// Asks for the process of the desk's seat.
pub fn ask<W: Wait, B: Block>(
    rt: &W,
    lock: &HistoryLock<State<B>>,
    _of: &Snapshot<State<B>>,
    desk: &mut Desk<B>,
    task: Task,
) -> Result<Spoken, NoMemory>
    requires playable { IsPlayable (base_of _of.now.value) }
    requires may { MayAsk task.proc task.request _of.now.value.config }
    requires seat { (desk.old.carrier.seat).0 ≡ (task.proc).0 }
    requires seated { IsSeated lock.now (base_of _of.now.value) desk.old.pass desk.old.carrier }
    ensures seat { desk.new.carrier.seat ≡ desk.old.carrier.seat }
    ensures seated { IsSeated lock.now (base_of _of.now.value) desk.new.pass desk.new.carrier }
{
    let pass = &mut desk.pass;
    let carrier = &mut desk.carrier;
    let mut gate = Open;
    vm_actors::ask(rt, lock, pass, carrier, task.proc, task.request, &mut gate)
}

/// The modified page writer works once.
pub fn write<W: Wait, B: Block>(
    rt: &W,
    lock: &HistoryLock<State<B>>,
    _of: &Snapshot<State<B>>,
    desk: &mut Desk<B>,
) -> Result<bool, NoMemory>
    requires playable { IsPlayable (base_of _of.now.value) }
    requires writer { (desk.old.carrier.seat).0 ≡ length _of.now.value.config.procs }
    requires seated { IsSeated lock.now (base_of _of.now.value) desk.old.pass desk.old.carrier }
    ensures seat { desk.new.carrier.seat ≡ desk.old.carrier.seat }
    ensures seated { IsSeated lock.now (base_of _of.now.value) desk.new.pass desk.new.carrier }
{
    let pass = &mut desk.pass;
    let carrier = &mut desk.carrier;
    let mut gate = Open;
    work_once(rt, lock, pass, carrier, Doing::Writing, &mut gate)
}

/// The swapper works once.
pub fn swap<W: Wait, B: Block>(
    rt: &W,
    lock: &HistoryLock<State<B>>,
    _of: &Snapshot<State<B>>,
    desk: &mut Desk<B>,
) -> Result<bool, NoMemory>
    requires playable { IsPlayable (base_of _of.now.value) }
    requires swapper { (desk.old.carrier.seat).0 ≡ length _of.now.value.config.procs + 1 }
    requires seated { IsSeated lock.now (base_of _of.now.value) desk.old.pass desk.old.carrier }
    ensures seat { desk.new.carrier.seat ≡ desk.old.carrier.seat }
    ensures seated { IsSeated lock.now (base_of _of.now.value) desk.new.pass desk.new.carrier }
{
    let pass = &mut desk.pass;
    let carrier = &mut desk.carrier;
    let mut gate = Open;
    work_once(rt, lock, pass, carrier, Doing::Swapping, &mut gate)
}

/// The entries that the desk's pass finds in a turn.
pub fn entries<W: Wait, B: Block>(
    rt: &W,
    alloc: Global,
    lock: &HistoryLock<State<B>>,
    _of: &Snapshot<State<B>>,
    desk: &mut Desk<B>,
) -> Result<Vec<Entry>, NoMemory>
    requires { IsSeated lock.now (base_of _of.now.value) desk.old.pass desk.old.carrier }
{
    let turn = lock.enter(rt, &mut desk.pass);
    let found = Vec::from_slice(alloc, turn.value().entries());
    lock.leave(&mut desk.pass, turn);
    Ok(found?)
}
