//! A part of a region that isn't written yet.
ghost use Rattle.std.specs.Prelude.{◌≡◌, ℕ, ◌<◌};
ghost use denote.RawPtr.{Ptr};
ghost use Rattle.page_pool.specs.Region.{place_of, spare_owns};

use crate::part::Part;
use std::marker::Model;

/// A part of a region that is out and was never written: its memory, and its ticket. If it is dropped, it is
/// out for ever.
#[derive(Drop)]
pub(crate) struct Spare {
    pub(crate) at: *mut [u8; 512],
    pub(crate) number: u32,
    pub ghost name: { ℕ },
    pub ghost size: { ℕ },
    pub ghost start: { Ptr },
    pub ghost place: { at ≡ place_of start number },
    pub ghost below: { number < size },
}

impl Model for Spare {
    ghost also_owns = { λ p. spare_owns p.name p.number p.start p.at };
}

impl Spare {
    /// The same part, with these bytes.
    pub(crate) fn fill(self, bytes: [u8; 512]) -> Part
        ensures { (result.name ≡ self.name) × (result.size ≡ self.size) × (result.bytes ≡ bytes) }
    {
        let Spare { at, number } = self;
        unsafe {
            *at = bytes;
            Part { at, number }
        }
    }
}

unsafe impl Send for Spare {}
