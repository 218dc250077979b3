use std::thread;
use vm_types::Seat;

/// Where a worker pauses, with no turn held.
pub trait Gate: Send + Drop {
    /// After a turn of the seat in which no entry was made.
    fn pause(&mut self, seat: Seat);
}

/// A gate that lets every thread go on.
#[derive(Drop)]
pub struct Open;

impl Gate for Open {
    fn pause(&mut self, _seat: Seat) {
        thread::yield_now();
    }
}

/// Pauses after a turn of the seat, unless an entry was made in it.
pub(crate) fn pause<G: Gate>(gate: &mut G, seat: Seat, made: bool) {
    if !made {
        gate.pause(seat);
    }
}
