use vm_types::{Answer, Reply};

/// What a request was answered with.
#[derive(Clone, Copy, Debug, PartialEq, Eq)]
pub enum Spoken {
    /// A reference's reply.
    Reply(Reply),
    /// A service's answer.
    Answer(Answer),
}

/// How a turn of a seat went.
#[derive(Clone, Copy, Debug, PartialEq, Eq)]
pub enum Turned {
    /// The request was answered.
    Spoke(Spoken),
    /// Reads of the reference's own page were begun.
    Reads,
    /// Something was made or begun, and the request isn't answered.
    Made,
    /// Nothing but landings was made: another seat has to work first.
    Waits,
    /// Nothing is to be written, or no process is to be swapped.
    Rests,
    /// The state was halted, or is halted now, as memory ran out.
    Short,
}
