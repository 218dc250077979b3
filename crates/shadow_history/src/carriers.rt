//! The last carrier of each seat.

ghost use Rattle.std.specs.Prelude.{◌≡◌, ◌<◌, ◌^◌, ℕ, Some, length, replicate, slice_get, slice_set, IfOk};
ghost use Rattle.pager_model.specs.Carrier.{Carrying, carrying_with, no_carrier};
ghost use Rattle.shadow_history.specs.Carriers.{HasSmallCounts};

use crate::carrying::Carrying;
use std::alloc::Global;
use vm_journal::What;
use vm_types::{NoMemory, Seat};

/// No seat of so many has a carrier.
///
/// # Errors
/// `NoMemory` if out of memory.
pub(crate) fn no_carriers(alloc: Global, seats: usize) -> Result<Vec<Carrying>, NoMemory>
    ensures { IfOk result (λ rows. rows.items ≡ replicate seats no_carrier) }
{
    Ok(vec![in alloc; Carrying::none(); seats]?)
}

/// The last carrier of one of the seats.
pub(crate) fn carrier_at(rows: &[Carrying], seat: Seat) -> Carrying
    requires { seat.0 < length rows.now }
    ensures { slice_get rows.now seat.0 ≡ Some result }
{
    rows[seat.0 as usize]
}

/// The carriers after an entry of this number, before which its seat was busy or not.
pub(crate) fn carry(rows: &mut Vec<Carrying>, number: u64, seat: Seat, busy: bool, what: What)
    requires within { seat.0 < length rows.old.items }
    requires small { (c : Carrying) → slice_get rows.old.items seat.0 ≡ Some c → HasSmallCounts (2 ^ 48) c }
    ensures { (c : Carrying) → slice_get rows.old.items seat.0 ≡ Some c → rows.new.items ≡ slice_set rows.old.items seat.0 (carrying_with number seat.0 busy what c) }
{
    rows[seat.0 as usize].add(number, seat, busy, what);
}
