//! The loops over the lock's words.
ghost use Rattle.std.specs.Prelude.{◌≡◌, ℕ, ◌+◌, ◌%◌, ◌<◌, ◌≤◌, [], ◌∷◌, length, slice_get, vec_len, vec_capacity, Some, None};
ghost use Rattle.std.specs.List.{range_with_len};
ghost use Rattle.history_lock.specs.Known.{Known};
ghost use Rattle.history_lock.specs.Views.{unseen};
ghost use Rattle.history_lock.specs.declared.stage.Stage.TheVariants.{Idle, Waiting, Holding};

use crate::opening::Opening;
use crate::pass::Pass;
use crate::plays::{Cut, Look, Rise, Sleep};
use crate::turns::Turns;
use crate::view::View;
use atomic_table::{Seat, Shared};
use std::sync::Wait;
use std::{mem, thread};
use vm_journal::Kept;

// Waits until no pass seems to have a ticket that isn't done. It sleeps until a turn ends, and what it found may
// have changed when it returns.
//
// None sleeps on unseen. A pass is counted in word 3 before its last look at word 1, which the system takes in the same
// step as it lays the pass down, and until it is up again. Who ends a turn changes word 1 first, looks at the count then,
// and wakes one pass if it isn't zero. These steps have one order, so a pass finds word 1 changed and looks again, or is
// found counted, and the wake comes when it lies there. Of several one is woken: it takes a turn and wakes another at its
// end, or it finds that a pass has a ticket, which will.
pub(crate) fn await_free<T: Kept, W: Wait>(
    rt: &W,
    shared: &Shared<Option<Box<T>>, View<T::Base>, Opening<T>, Turns<T>>,
    seat: &mut Seat<Option<Box<T>>, View<T::Base>>,
)
    requires own { seat.old.table_id ≡ shared.now.table_id }
    requires words { shared.now.table_id.words ≡ 4 }
    requires idle { seat.old.me.0.stage ≡ Idle }
    ensures own { seat.new.table_id ≡ seat.old.table_id }
    ensures same { seat.new.me ≡ seat.old.me }
{
    for _ in rt.forever() {
        let served = shared.peek(1);
        if shared.peek(0) == served {
            return;
        }
        shared.fetch_add::<Sleep>(seat, 3, 1);
        shared.park(rt, 1, (served % 0x1_0000_0000) as u32);
        shared.fetch_sub::<Rise>(seat, 3, 1);
    }
    unreachable!()
}

// Looks at the ticket that is served until it is `ticket`, and takes the value.
pub(crate) fn await_turn<T: Kept, W: Wait>(
    rt: &W,
    shared: &Shared<Option<Box<T>>, View<T::Base>, Opening<T>, Turns<T>>,
    seat: &mut Seat<Option<Box<T>>, View<T::Base>>,
    ticket: u64,
) -> Box<T>
    requires own { seat.old.table_id ≡ shared.now.table_id }
    requires words { (shared.now.table_id.words ≡ 4) × (shared.now.table_id.slots ≡ 1) }
    requires waits { (t : ℕ) × (seat.old.me.0.stage ≡ Waiting t) × (t % 18446744073709551616 ≡ ticket) }
    requires empty { seat.old.me.1 ≡ [] }
    ensures own { seat.new.table_id ≡ seat.old.table_id }
    ensures known { Known T.journal T.base result.value seat.old.me.0 }
    ensures holds { (t : ℕ) × (seat.new.me ≡ (record seat.old.me.0 { stage = Holding t; seen = T.journal result.value }, (0, None) ∷ [])) }
{
    for _ in rt.forever() {
        let served = shared.load::<Look<T>>(seat, 1);
        if served == ticket {
            let value = shared.exchange(seat, 0, None).unwrap();
            return value;
        }
        thread::yield_now();
    }
    unreachable!()
}

// Cuts the first pass, which owns the numbers below n, into n passes of one number each.
pub(crate) fn deal<T: Kept>(
    shared: &Shared<Option<Box<T>>, View<T::Base>, Opening<T>, Turns<T>>,
    seat: Seat<Option<Box<T>>, View<T::Base>>,
    n: u32,
    passes: &mut Vec<Pass<T>>,
)
    requires own { seat.table_id ≡ shared.now.table_id }
    requires words { shared.now.table_id.words ≡ 4 }
    requires some_pass { 0 < n }
    requires room { (passes.old.items ≡ []) × (n ≤ vec_capacity passes.old) }
    requires all { seat.me ≡ (unseen (range_with_len 0 n) (T.base shared.now.key.value.value), []) }
    ensures count { length passes.new.items ≡ n }
    ensures each { (i : ℕ) (pass : _) → slice_get passes.new.items i ≡ Some pass → (pass.seat.table_id ≡ shared.now.table_id) × (pass.seat.me ≡ (unseen (i ∷ []) (T.base shared.now.key.value.value), [])) }
{
    let mut rest = seat;
    for _i in 1..n {
        let others = shared.split_seat::<Cut>(&mut rest);
        let first = mem::replace(&mut rest, others);
        passes.push_reserved(Pass { seat: first });
    }
    passes.push_reserved(Pass { seat: rest });
}
