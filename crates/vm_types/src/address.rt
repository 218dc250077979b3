ghost use Rattle.std.specs.Prelude.{◌≡◌};
ghost use Rattle.vm_types.specs.Address.{region_of, page_of, offset_of};

use crate::names::Addr;

/// The region (0 is P0, 1 is P1, 2 is S0, 3 is none), the page number in it (below 2^21) and the
/// byte in the page (below 512) of an address. Source: VAX Architecture Reference Manual, memory
/// management.
pub fn split(addr: Addr) -> (u32, u32, u32)
    ensures { result ≡ (region_of addr.0, page_of addr.0, offset_of addr.0) }
{
    (addr.0 >> 30, (addr.0 >> 9) & 0x1f_ffff, addr.0 & 0x1ff)
}
