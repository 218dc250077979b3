use state_pages::Backing;
use vm_types::{BlockId, Page, Ref, Seat};

/// The page of a reference that a seat makes: the section block behind it, if there is one, and where
/// it is.
#[derive(Clone, Copy, Debug, PartialEq, Eq)]
pub struct Sought {
    pub seat: Seat,
    pub r: Ref,
    pub page: Page,
    pub behind: Option<BlockId>,
    pub backing: Backing,
}
