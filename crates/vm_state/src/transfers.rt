ghost use Rattle.std.specs.Prelude.{◌≡◌, ◌-◌, ◌<◌, None};

use vm_journal::Role;

/// The transfer of a frame and a seat has ended: the frame has no role, and the seat, as all seats
/// together, has one open transfer less.
#[inline(always)]
pub(crate) fn end_transfer(role: &mut Option<Role>, busy: &mut u32, in_flight: &mut u32)
    requires seat { 0 < busy.old }
    requires all { 0 < in_flight.old }
    ensures role { role.new ≡ None }
    ensures seat { busy.new ≡ busy.old - 1 }
    ensures all { in_flight.new ≡ in_flight.old - 1 }
{
    *role = None;
    *busy -= 1;
    *in_flight -= 1;
}
