use vm_types::{FrameState, Page};

/// What the database knows of a page frame.
#[derive(Clone, Copy, Debug, PartialEq, Eq)]
pub struct Row {
    pub state: FrameState,
    /// The page that it holds.
    pub page: Option<Page>,
    /// Whether that page has to be written before the frame is reused.
    pub modify: bool,
    /// One for the shares together, one for an open transfer, and one for each pin.
    pub refs: u32,
    /// How many valid process entries are for the frame.
    pub shares: u32,
    /// The ring slot of a valid private page, 0 for every other.
    pub slot: u32,
    /// How many transfers are open on the frame, 0 or 1.
    pub flights: u32,
}
