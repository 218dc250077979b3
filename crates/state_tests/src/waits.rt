//! Steps that a seat can't make.

use crate::schedule::play;
use crate::schedules::{A, B, SHARED};
use seat_schedules::{Act, Went};
use std::test::Fail;
use vm_types::{Proc, Seat};

// While a read is open its seat does nothing else, and a seat that collided waits.
#[test]
fn seats_wait_for_a_read(rt: HostRuntime) -> Result<(), Fail> {
    for (seat, act, went) in [
        (A, Act::Ask(0), Went::Barred),
        (A, Act::Refuse, Went::Barred),
        (B, Act::Ask(1), Went::Waits),
        (B, Act::Ask(0), Went::Barred),
        (B, Act::Ask(2), Went::Barred),
        (B, Act::Land, Went::Barred),
        (B, Act::Leave(Proc(0)), Went::Barred),
        (B, Act::Leave(Proc(2)), Went::Barred),
        (Seat(4), Act::Write, Went::Barred),
        (Seat(3), Act::Write, Went::Waits),
    ] {
        let steps = [(A, Act::Ask(0)), (B, Act::Ask(1)), (seat, act)];
        let played = play(rt.alloc(), SHARED, &steps)?;
        assert_eq!(rt; played.went, went);
        assert_eq!(rt; played.entries.len(), 2);
    }
    Ok(())
}
