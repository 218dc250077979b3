use vm_types::Proc;

/// What a seat does in one step of a schedule.
#[derive(Clone, Copy, Debug, PartialEq, Eq)]
pub enum Act {
    /// The next step for the request at this place of the body, which is of the seat's own process.
    Ask(usize),
    /// A write cluster begins.
    Write,
    /// The process that is chosen to leave turns to leaving.
    Choose,
    /// The process, which is leaving, goes on to leave.
    Leave(Proc),
    /// The seat's carrier is carried and lands.
    Land,
    /// The reference is refused whose read failed.
    Refuse,
}
