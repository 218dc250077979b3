//! What is behind a page that a mapping has.

ghost use Rattle.std.specs.Prelude.{◌≡◌};
ghost use Rattle.vm_types.specs.Behind.{FitsPages, origin_after};

use crate::config::Origin;

/// The origin so many pages on.
pub fn origin_after(origin: Origin, pages: u32) -> Origin
    requires { FitsPages origin pages }
    ensures { result ≡ origin_after origin pages }
{
    match origin {
        Origin::Zero => Origin::Zero,
        Origin::Section(s, first) => Origin::Section(s, first + pages),
    }
}
