//! A part of a region.
ghost use Rattle.std.specs.Prelude.{◌≡◌, ℕ, ◌<◌, List};
ghost use Rattle.std.specs.Borrow.{sem, full_share};
ghost use denote.RawPtr.{Ptr};
ghost use denote.Struct.Lending.{lent_at};
ghost use Rattle.page_pool.specs.Region.{Page, part_owns, place_of};

use std::marker::Model;

/// A part of a region that is out: its 512 bytes, and its ticket. If it is dropped, it is out for ever.
#[derive(Drop)]
pub(crate) struct Part {
    pub(crate) at: *mut [u8; 512],
    pub(crate) number: u32,
    pub ghost bytes: { List ℕ },
    pub ghost name: { ℕ },
    pub ghost size: { ℕ },
    pub ghost start: { Ptr },
    pub ghost place: { at ≡ place_of start number },
    pub ghost below: { number < size },
}

impl Model for Part {
    ghost also_owns = { λ p. part_owns p.name p.number p.start p.at p.bytes };

    ghost also_shares = { λ p _ κ. lent_at Page p.at p.bytes κ };
}

impl Part {
    ghost use Rattle.page_pool.specs.Loan.{LendsPart};

    /// Its bytes.
    pub(crate) fn bytes(&self) -> &[u8; 512]
        ensures { result.now ≡ self.now.bytes }
    {
        unsafe { &*self.at }
    }

    /// Its bytes, to be written.
    pub(crate) fn bytes_mut(&mut self) -> &mut [u8; 512]
        ensures* writes_back { sem 𝓛 (LendsPart self.entry result) }
        ensures bytes { result.now ≡ self.old.bytes }
    {
        unsafe { &mut *self.at }
    }
}

unsafe impl Send for Part {}
