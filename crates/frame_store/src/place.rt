//! Where the bytes of a frame are.

ghost use Rattle.std.specs.Prelude.{◌≡◌, IsSome, Some, length};
ghost use Rattle.std.specs.Borrow.{sem};
ghost use Rattle.vm_types.specs.declared.limits.TheConstants.{PAGE_BYTES};
ghost use Rattle.frame_store.specs.Place.{LendsPlace, buffer_of, bytes_in};

use page_pool::{PageBuf, SpareBuf};
use std::mem;

/// Where the bytes of a frame are.
#[derive(Drop)]
pub(crate) enum Place {
    /// Nowhere: they are zeros, and a buffer waits for them.
    Spare(SpareBuf),
    /// In this buffer.
    Buffer(PageBuf),
    /// Out with a read.
    Out,
}

impl Place {
    /// The 512 bytes, to be written, if they aren't out.
    pub(crate) fn bytes_mut(&mut self) -> &mut [u8]
        requires { IsSome (buffer_of self.old) }
        ensures* writes_back { sem 𝓛 (LendsPlace self.entry result) }
        ensures bytes { bytes_in (buffer_of self.old) ≡ Some result.now }
        ensures size { length result.now ≡ PAGE_BYTES }
    {
        if let Place::Buffer(buf) = self {
            return buf.bytes_mut();
        }
        self.fill()
    }

    /// Writes the zeros into the buffer that waits for them, and lends them to be written.
    #[inline(never)]
    fn fill(&mut self) -> &mut [u8]
        requires { IsSome (buffer_of self.old) }
        ensures* writes_back { sem 𝓛 (LendsPlace self.entry result) }
        ensures bytes { bytes_in (buffer_of self.old) ≡ Some result.now }
        ensures size { length result.now ≡ PAGE_BYTES }
    {
        *self = Place::Buffer(buffer(mem::replace(self, Place::Out)));
        match self {
            Place::Buffer(buf) => buf.bytes_mut(),
            Place::Spare(_) | Place::Out => unreachable!(),
        }
    }
}

/// The buffer, with zeros for its bytes if there are none.
pub(crate) fn buffer(place: Place) -> PageBuf
    requires { IsSome (buffer_of place) }
    ensures { buffer_of place ≡ Some result }
{
    match place {
        Place::Buffer(buf) => buf,
        Place::Spare(spare) => spare.fill(),
        Place::Out => unreachable!(),
    }
}
