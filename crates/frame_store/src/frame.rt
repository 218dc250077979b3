//! The buffer of a frame.

ghost use Rattle.std.specs.Prelude.{◌≡◌, ◌+◌, ◌<◌, ◌≤◌, Some, None, IsSome, IfSome, length, replicate};
ghost use Rattle.std.specs.Option.{option_map};
ghost use Rattle.std.specs.Borrow.{sem};
ghost use Rattle.vm_types.specs.declared.limits.TheConstants.{PAGE_BYTES};
ghost use Rattle.frame_store.specs.Place.{bytes_in, with_bytes};

use crate::place::{Place, buffer};
use page_pool::{PageBuf, Pool, SpareBuf};
use std::marker::Model;
use std::mem;

/// What a frame has that wasn't written.
const ZEROS: [u8; 512] = [0; 512];

/// The buffer of a frame. Its memory isn't touched before it is written.
#[derive(Drop)]
pub(crate) struct Frame {
    place: Place,
}

impl Model for Frame {
    ghost use Rattle.std.specs.Prelude.{Option};
    ghost use Rattle.page_pool.specs.Pool.{Buffer};
    ghost use Rattle.frame_store.specs.Place.{buffer_of};

    ghost Value = { Option Buffer };

    ghost view = { λ f. buffer_of f.place };
}

impl Frame {
    ghost use Rattle.frame_store.specs.Frame.{LendsFrame};

    /// The frame whose bytes are in a buffer.
    pub(crate) fn new(buf: PageBuf) -> Frame
        ensures { result ≡ Some buf }
    {
        Frame {
            place: Place::Buffer(buf),
        }
    }

    /// A frame of zeros, which has a buffer once it is written.
    pub(crate) fn zeros(spare: SpareBuf) -> Frame
        ensures { result ≡ Some (record { pool = spare; bytes = replicate PAGE_BYTES 0 }) }
    {
        Frame {
            place: Place::Spare(spare),
        }
    }

    /// Its 512 bytes, if it isn't out. No call of a frame allocates.
    pub(crate) fn bytes(&self) -> &[u8]
        requires { IsSome self.now }
        ensures bytes { bytes_in self.now ≡ Some result.now }
        ensures size { length result.now ≡ PAGE_BYTES }
    {
        match &self.place {
            Place::Buffer(buf) => buf.bytes(),
            Place::Spare(_) | Place::Out => zeros(),
        }
    }

    /// Its 512 bytes, to be written, if it isn't out.
    pub(crate) fn bytes_mut(&mut self) -> &mut [u8]
        requires { IsSome self.old }
        ensures* writes_back { sem 𝓛 (LendsFrame self.entry result) }
        ensures bytes { bytes_in self.old ≡ Some result.now }
        ensures size { length result.now ≡ PAGE_BYTES }
    {
        let place = &mut self.place;
        place.bytes_mut()
    }

    /// Makes its bytes zero, if it isn't out.
    pub(crate) fn zero(&mut self)
        ensures { self.new ≡ with_bytes self.old (replicate PAGE_BYTES 0) }
    {
        if let Place::Buffer(buf) = &mut self.place {
            buf.zero();
        }
    }

    /// Takes the buffer out.
    pub(crate) fn take(&mut self) -> PageBuf
        requires { IsSome self.old }
        ensures out { self.new ≡ None }
        ensures buffer { self.old ≡ Some result }
    {
        buffer(mem::replace(&mut self.place, Place::Out))
    }

    /// Puts the buffer back into its pool, if it isn't out.
    pub(crate) fn put_back(self, pool: &mut Pool)
        requires { IfSome self (λ b. b.pool ≡ pool.old.name) }
        ensures name { pool.new.name ≡ pool.old.name }
        ensures left { IsSome self → pool.new.left ≡ pool.old.left + 1 }
    {
        match self.place {
            Place::Buffer(buf) => pool.put(buf),
            Place::Spare(spare) => pool.put_spare(spare),
            Place::Out => {}
        }
    }

    /// A buffer of the pool with the same bytes, if it isn't out.
    pub(crate) fn copy(&self, pool: &mut Pool) -> PageBuf
        requires left { 0 < pool.old.left }
        requires some { IsSome self.now }
        ensures name { pool.new.name ≡ pool.old.name }
        ensures left { pool.new.left + 1 ≡ pool.old.left }
        ensures pool { result.pool ≡ pool.old.name }
        ensures bytes { bytes_in self.now ≡ Some result.bytes }
        ensures size { length result.bytes ≡ PAGE_BYTES }
    {
        let buf = match &self.place {
            Place::Buffer(buf) => pool.take_copy(buf).unwrap(),
            Place::Spare(_) | Place::Out => pool.take_spare().unwrap().fill(),
        };
        // The proof learns here that there are 512 bytes.
        let _ = buf.bytes();
        buf
    }
}

/// The bytes of a frame that wasn't written.
fn zeros() -> &'static [u8]
    ensures bytes { result.now ≡ replicate PAGE_BYTES 0 }
    ensures size { length result.now ≡ PAGE_BYTES }
{
    &ZEROS
}
