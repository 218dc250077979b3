use std::sync::Wait;
use std::thread::Parker;
use std::time::Duration;
use vm_actors::Gate;
use vm_types::Seat;

/// How long a worker pauses after a turn in which it made no entry, in microseconds.
const PAUSE: u64 = 100;

/// A gate at which a worker sleeps for a moment, so that one with nothing to do takes no turn from others.
#[derive(Drop)]
pub(crate) struct Nap<'r, R: Wait + Sync> {
    pub(crate) rt: &'r R,
}

impl<R: Wait + Sync> Gate for Nap<'_, R> {
    fn pause(&mut self, _seat: Seat) {
        Parker::new().park_timeout(self.rt, Duration::from_micros(PAUSE));
    }
}
