use seat_turns::Turned;

/// How a turn at the lock went, and whether an entry was made in it.
#[derive(Clone, Copy, Debug, PartialEq, Eq)]
pub(crate) struct Taken {
    pub(crate) turned: Turned,
    pub(crate) made: bool,
}
