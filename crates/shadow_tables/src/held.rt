ghost use Rattle.std.specs.Prelude.{◌≡◌};

use std::marker::Model;

/// A page in a slot, by its number, and whether it is locked there, and pinned in memory.
#[derive(Clone, Copy, Debug)]
pub struct Held {
    pub(crate) vpn: u32,
    pub(crate) locked: bool,
    pub(crate) pinned: bool,
}

impl Model for Held {
    ghost use Rattle.vm_types.specs.Ring.{Held as HeldPage};

    ghost Value = { HeldPage };

    ghost view = { λ h. record { vpn = h.vpn; locked = h.locked; pinned = h.pinned } };

    ghost inverse = { λ h. record { vpn = h.vpn; locked = h.locked; pinned = h.pinned } };
}

impl Held {
    ghost use Rattle.vm_types.specs.Ring.{is_fixed};

    /// The number of the page.
    pub fn vpn(self) -> u32
        ensures { result ≡ self.vpn }
    {
        self.vpn
    }

    /// Whether the page is locked.
    pub fn is_locked(self) -> bool
        ensures { result ≡ self.locked }
    {
        self.locked
    }

    /// Whether the page is pinned.
    pub fn is_pinned(self) -> bool
        ensures { result ≡ self.pinned }
    {
        self.pinned
    }

    /// Whether the page is locked or pinned.
    pub fn is_fixed(self) -> bool
        ensures { result ≡ is_fixed self }
    {
        self.locked || self.pinned
    }
}
