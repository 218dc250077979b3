ghost use Rattle.std.specs.Prelude.{◌≡◌, ℕ, ◌<◌, [], ◌∷◌, ◌++◌, length, slice_get, Contains, IfOk, Some};
ghost use Rattle.vm_journal.specs.Own.{own_entries};
ghost use mathlib.Core.List.{IsPrefix};
ghost use Rattle.history_lock.specs.Known.{Known, Adds, OwnsAll};
ghost use Rattle.history_lock.specs.Views.{unseen, longer};

use crate::opening::Opening;
use crate::pass::Pass;
use crate::plays::{Glue, PassOn, Publish, Settle, Take};
use crate::steps::{await_free, await_turn, deal};
use crate::turn::Turn;
use crate::turns::Turns;
use crate::view::View;
use atomic_table::{Refused, Table};
use std::alloc::Global;
use std::snapshot::Snapshot;
use std::sync::Wait;
use vm_journal::Kept;
use vm_types::NoMemory;

/// A lock that hands its value to one pass at a time. Threads share it by reference. Nothing is proved
/// of whether or when a pass gets its turn, or in which order.
#[derive(Drop)]
pub struct HistoryLock<T: Kept + Drop> {
    table: Table<Option<Box<T>>, View<T::Base>, Opening<T>, Turns<T>, Global>,
    ghost sized: { (table.shared.table_id.words ≡ 4) × (table.shared.table_id.slots ≡ 1) },
}

impl<T: Kept + Drop> HistoryLock<T> {
    ghost use Rattle.history_lock.specs.Passes.{view, seen, numbers, base_of, IsIdle, HasTurn, IsSameLock, IsOf, passes_of};
    ghost use Rattle.history_lock.specs.Values.{value_of};

    /// A lock round `value`, and its `n` passes. Pass `i`, from 0, owns the number `i`.
    ///
    /// # Errors
    /// `NoMemory` if memory ran out; the value is then dropped.
    pub fn new(alloc: Global, value: T, n: u32) -> Result<(HistoryLock<T>, Vec<Pass<T>>), NoMemory>
        requires passes { 0 < n }
        requires empty { T.journal value ≡ [] }
        ensures passes { IfOk result (λ made. passes_of made.0 ≡ n) }
        ensures count { IfOk result (λ made. length made.1.items ≡ n) }
        ensures own { IfOk result (λ made. (i : ℕ) (pass : _) → slice_get made.1.items i ≡ Some pass → IsOf made.0 pass) }
        ensures idle { IfOk result (λ made. (i : ℕ) (pass : _) → slice_get made.1.items i ≡ Some pass → IsIdle pass) }
        ensures view { IfOk result (λ made. (i : ℕ) (pass : _) → slice_get made.1.items i ≡ Some pass → view pass ≡ unseen (i ∷ []) (T.base value)) }
    {
        let mut passes = Vec::with_capacity(alloc, n as usize)?;
        let mut slots = Vec::with_capacity(alloc, 1)?;
        let opening = Opening {
            value: Snapshot::of(&value),
            passes: n,
        };
        let held = Box::new(alloc, value)?;
        slots.push_reserved(Some(held));
        match Table::new(alloc, &[0, 0, 0, 0], slots, &opening) {
            Ok((table, seat)) => {
                deal(&table.shared, seat, n, &mut passes);
                Ok((HistoryLock { table }, passes))
            }
            Err(Refused { slots: _ }) => Err(NoMemory),
        }
    }

    /// Waits for the pass's turn. The value's journal begins with what the pass has seen, and its
    /// entries of the pass's numbers are those that the pass has seen. Doesn't allocate.
    pub fn enter<W: Wait>(&self, rt: &W, pass: &mut Pass<T>) -> Turn<T>
        requires own { IsOf self.now pass.old }
        requires idle { IsIdle pass.old }
        ensures known { Known T.journal T.base (value_of result) (view pass.old) }
        ensures turn { HasTurn pass.new result }
        ensures seen { seen pass.new ≡ T.journal (value_of result) }
        ensures numbers { numbers pass.new ≡ numbers pass.old }
        ensures base { base_of pass.new ≡ base_of pass.old }
        ensures same { IsSameLock pass.old pass.new }
    {
        let shared = &self.table.shared;
        await_free(rt, shared, &mut pass.seat);
        let ticket = shared.fetch_add::<Take>(&mut pass.seat, 0, 1);
        let value = await_turn(rt, shared, &mut pass.seat, ticket);
        let found = value.entries().len();
        Turn { value, found }
    }

    /// Gives the value back, ends the turn, and wakes a pass that sleeps for one. The pass has then seen the
    /// value's journal. Doesn't wait, and doesn't allocate.
    pub fn leave(&self, pass: &mut Pass<T>, turn: Turn<T>)
        requires own { IsOf self.now pass.old }
        requires turn { HasTurn pass.old turn }
        requires base { base_of pass.old ≡ Some (T.base (value_of turn)) }
        requires adds { Adds (view pass.old) (T.journal (value_of turn)) }
        ensures idle { IsIdle pass.new }
        ensures seen { seen pass.new ≡ T.journal (value_of turn) }
        ensures numbers { numbers pass.new ≡ numbers pass.old }
        ensures base { base_of pass.new ≡ base_of pass.old }
        ensures same { IsSameLock pass.old pass.new }
    {
        let Turn { value, found } = turn;
        let added = value.entries().len() - found;
        let shared = &self.table.shared;
        drop(shared.exchange(&mut pass.seat, 0, Some(value)));
        shared.fetch_add::<Publish<T>>(&mut pass.seat, 2, added as u64);
        shared.fetch_add::<PassOn>(&mut pass.seat, 1, 1);
        // Not before the turn is passed on: `await_free` says why.
        if shared.peek(3) > 0 {
            shared.wake_one(1);
        }
    }

    /// Makes two passes one. Doesn't wait, and doesn't allocate.
    pub fn absorb(&self, pass: &mut Pass<T>, other: Pass<T>)
        requires own { IsOf self.now pass.old }
        requires other_own { IsOf self.now other }
        requires idle { IsIdle pass.old }
        requires other_idle { IsIdle other }
        ensures idle { IsIdle pass.new }
        ensures numbers { numbers pass.new ≡ numbers pass.old ++ numbers other }
        ensures seen { seen pass.new ≡ longer (seen pass.old) (seen other) }
        ensures begins { IsPrefix (seen pass.old) (seen pass.new) }
        ensures other_begins { IsPrefix (seen other) (seen pass.new) }
        ensures entries { (k : ℕ) → Contains (numbers pass.old) k → own_entries k (seen pass.new) ≡ own_entries k (seen pass.old) }
        ensures other_entries { (k : ℕ) → Contains (numbers other) k → own_entries k (seen pass.new) ≡ own_entries k (seen other) }
        ensures base { base_of pass.new ≡ base_of pass.old }
        ensures same { IsSameLock pass.old pass.new }
    {
        let shared = &self.table.shared;
        let Pass { seat } = other;
        shared.join_seat::<Glue>(&mut pass.seat, seat);
        shared.load::<Settle>(&mut pass.seat, 2);
    }

    /// Ends the lock and hands out its value, whose journal the pass has seen whole. Doesn't wait, and
    /// doesn't allocate.
    pub fn close(self, pass: Pass<T>) -> T
        requires own { IsOf self pass }
        requires idle { IsIdle pass }
        requires all { OwnsAll (passes_of self) (numbers pass) }
        ensures known { Known T.journal T.base result (view pass) }
        ensures whole { T.journal result ≡ seen pass }
    {
        let HistoryLock { table } = self;
        let Pass { seat } = pass;
        let mut closed = table.close_with(seat);
        let value = closed.take(0);
        closed.free();
        Box::into_inner(value.unwrap())
    }
}
