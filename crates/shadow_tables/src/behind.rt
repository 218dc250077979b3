ghost use Rattle.std.specs.Prelude.{◌≡◌};

use std::marker::Model;
use vm_types::Origin;

/// What a page is mapped to: what is behind it, and its protection code.
#[derive(Clone, Copy, Debug)]
pub struct Behind {
    origin: Origin,
    prot: u8,
}

impl Model for Behind {
    ghost use Rattle.pager_model.specs.Maps.{Mapped};

    ghost Value = { Mapped };

    ghost view = { λ m. record { origin = m.origin; prot = m.prot } };

    ghost inverse = { λ m. record { origin = m.origin; prot = m.prot } };
}

impl Behind {
    /// These two.
    pub(crate) fn new(origin: Origin, prot: u8) -> Behind
        ensures { result ≡ record { origin = origin; prot = prot } }
    {
        Behind { origin, prot }
    }

    /// What is behind the page.
    pub fn origin(self) -> Origin
        ensures { result ≡ self.origin }
    {
        self.origin
    }

    /// Its protection code.
    pub fn prot(self) -> u8
        ensures { result ≡ self.prot }
    {
        self.prot
    }
}
