ghost use Rattle.std.specs.Prelude.{◌≡◌, length, replicate};
ghost use Rattle.std.specs.Borrow.{sem};

use crate::part::Part;
use std::marker::Model;

/// A buffer of 512 bytes, out of a pool. No two buffers overlap. A buffer that is dropped isn't handed out again.
#[derive(Drop)]
pub struct PageBuf {
    pub(crate) part: Part,
}

impl Model for PageBuf {
    ghost use Rattle.page_pool.specs.Pool.{Buffer};

    ghost Value = { Buffer };

    ghost view = { λ b. record {
      pool = record { number = b.part.name; size = b.part.size };
      bytes = b.part.bytes;
    } };
}

impl PageBuf {
    ghost use Rattle.page_pool.specs.PageBuf.{LendsBytes};

    /// Its 512 bytes. Doesn't allocate.
    pub fn bytes(&self) -> &[u8]
        ensures bytes { result.now ≡ self.now.bytes }
        ensures size { length result.now ≡ 512 }
    {
        whole(self.part.bytes())
    }

    /// Its 512 bytes, to be written. Doesn't allocate.
    pub fn bytes_mut(&mut self) -> &mut [u8]
        ensures* writes_back { sem 𝓛 (LendsBytes self.entry result) }
        ensures bytes { result.now ≡ self.old.bytes }
        ensures size { length result.now ≡ 512 }
    {
        // The proof learns here that there are 512 bytes.
        let _ = self.bytes();
        self.part.bytes_mut().as_mut_slice()
    }

    /// Makes all its bytes zero. Doesn't allocate.
    pub fn zero(&mut self)
        ensures { self.new ≡ record self.old { bytes = replicate 512 0 } }
    {
        *self.part.bytes_mut() = [0; 512];
    }
}

/// All of an array.
fn whole(bytes: &[u8; 512]) -> &[u8]
    ensures bytes { result.now ≡ bytes.now }
    ensures size { length result.now ≡ 512 }
{
    &bytes[..]
}
