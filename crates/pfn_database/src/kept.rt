ghost use Rattle.std.specs.Prelude.{◌≡◌};
ghost use Rattle.pfn_database.specs.Kept.{joined, kept_of};

use crate::row::Row;
use vm_types::{FrameState, Page};

/// What is kept of a frame beside its two link cells. Those hold its share count and its ring slot
/// while it is on no list.
#[derive(Clone, Copy, Debug)]
pub(crate) struct Kept {
    pub state: FrameState,
    pub page: Option<Page>,
    pub modify: bool,
    pub refs: u32,
    pub flights: u32,
}

/// What is kept of a row beside its shares and its slot.
pub(crate) fn kept_of(row: Row) -> Kept
    ensures { result ≡ kept_of row }
{
    Kept {
        state: row.state,
        page: row.page,
        modify: row.modify,
        refs: row.refs,
        flights: row.flights,
    }
}

/// The row of what is kept and the two cells.
pub(crate) fn joined(kept: Kept, cells: (u32, u32)) -> Row
    ensures { result ≡ joined kept cells }
{
    Row {
        state: kept.state,
        page: kept.page,
        modify: kept.modify,
        refs: kept.refs,
        shares: cells.0,
        slot: cells.1,
        flights: kept.flights,
    }
}
