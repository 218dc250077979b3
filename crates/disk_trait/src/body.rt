ghost use Rattle.std.specs.Prelude.{◌≡◌, ◌+◌, ◌-◌, ◌^◌, ◌<◌, ◌++◌, ◌↔◌, [], length, replicate, take, drop, IfOk, OnOk, OnErr, IsErr, Contains};
ghost use Rattle.vm_types.specs.declared.limits.TheConstants.{PAGE_BYTES};
ghost use Rattle.disk_trait.specs.Body.{IsSpare};

use crate::planned_buf::PlannedBuf;
use page_pool::{PageBuf, SpareBuf};
use std::alloc::Global;
use std::marker::Model;
use std::mem;
use vm_types::{Failed, NoMemory};

/// The bytes of a new page.
const ZEROS: [u8; 512] = [0; 512];

/// Where the bytes of a block are.
#[derive(Drop)]
pub(crate) enum Place {
    /// Nowhere: they are zeros, and there is a part for them.
    Spare(SpareBuf),
    /// In this buffer.
    Buffer(PageBuf),
    /// Beside the numbers of the calls that are to fail.
    Planned(Box<PlannedBuf>),
    /// Out, while they are written.
    Out,
}

/// The 512 bytes of a block, the numbers of the calls at which it is to fail, and how often it has failed.
/// Where no call is to fail it has no room for the last two. Zeros that it begins with aren't touched then
/// before bytes are written.
#[derive(Drop)]
pub(crate) struct Body {
    place: Place,
}

impl Model for Body {
    ghost use Rattle.std.specs.Prelude.{◌≡◌, length};
    ghost use Rattle.vm_types.specs.declared.limits.TheConstants.{PAGE_BYTES};
    ghost use Rattle.disk_trait.specs.Body.{BodyView, IsThere, bytes_at, calls_at, faults_at};

    ghost Value = { BodyView };

    ghost view = { λ b. record {
      bytes = bytes_at b.place;
      calls = calls_at b.place;
      faults = faults_at b.place;
    } };

    ghost invariant = { λ b. (length (bytes_at b.place) ≡ PAGE_BYTES) × IsThere b.place };
}

impl Body {
    /// Zeros, in a part that isn't written yet, and the calls that are to fail.
    ///
    /// # Errors
    /// `NoMemory` for want of memory.
    pub(crate) fn zeros(alloc: Global, spare: SpareBuf, calls: &[u32]) -> Result<Body, NoMemory>
        ensures { IfOk result (λ b. b ≡ record { bytes = replicate PAGE_BYTES 0; calls = calls.now; faults = 0 }) }
    {
        if calls.is_empty() {
            return Ok(Body {
                place: Place::Spare(spare),
            });
        }
        Body::planned(alloc, spare.fill(), calls)
    }

    /// These bytes, in the part, and the calls that are to fail. The part is not written if they are zeros.
    ///
    /// # Errors
    /// `NoMemory` for want of memory.
    pub(crate) fn new(
        alloc: Global,
        spare: SpareBuf,
        bytes: &[u8],
        calls: &[u32],
    ) -> Result<Body, NoMemory>
        requires { length bytes.now ≡ PAGE_BYTES }
        ensures { IfOk result (λ b. b ≡ record { bytes = bytes.now; calls = calls.now; faults = 0 }) }
    {
        if bytes == ZEROS.as_slice() {
            return Body::zeros(alloc, spare, calls);
        }
        let buf = filled(spare, bytes);
        if calls.is_empty() {
            return Ok(Body {
                place: Place::Buffer(buf),
            });
        }
        Body::planned(alloc, buf, calls)
    }

    /// The bytes of the buffer, and the calls that are to fail.
    ///
    /// # Errors
    /// `NoMemory` for want of memory.
    fn planned(alloc: Global, buf: PageBuf, calls: &[u32]) -> Result<Body, NoMemory>
        requires { length buf.bytes ≡ PAGE_BYTES }
        ensures { IfOk result (λ b. b ≡ record { bytes = buf.bytes; calls = calls.now; faults = 0 }) }
    {
        let planned = PlannedBuf::new(alloc, buf, calls)?;
        match Box::new(alloc, planned) {
            Ok(planned) => Ok(Body {
                place: Place::Planned(planned),
            }),
            Err(_) => Err(NoMemory),
        }
    }

    /// Its 512 bytes.
    pub(crate) fn bytes(&self) -> &[u8]
        ensures bytes { result.now ≡ self.now.bytes }
        ensures size { length result.now ≡ PAGE_BYTES }
    {
        match &self.place {
            Place::Buffer(buf) => buf.bytes(),
            Place::Planned(planned) => planned.bytes(),
            Place::Spare(_) | Place::Out => zero_bytes(),
        }
    }

    /// How often it has failed.
    pub(crate) fn faults(&self) -> u64
        ensures { result ≡ self.now.faults }
    {
        match &self.place {
            Place::Planned(planned) => planned.faults(),
            Place::Spare(_) | Place::Buffer(_) | Place::Out => 0,
        }
    }

    /// Reads the bytes, at the call with this number.
    ///
    /// # Errors
    /// `Failed` where that call is to fail.
    pub(crate) fn read(&mut self, call: u64, into: &mut [u8]) -> Result<(), Failed>
        requires size { length into.old ≡ PAGE_BYTES }
        requires few_faults { self.old.faults < 2 ^ 64 - 1 }
        ensures fails { IsErr result ↔ Contains self.old.calls call }
        ensures read { OnOk result (into.new ≡ self.old.bytes) }
        ensures bytes { self.new.bytes ≡ self.old.bytes }
        ensures calls { self.new.calls ≡ self.old.calls }
        ensures ok { OnOk result (self.new.faults ≡ self.old.faults) }
        ensures failed { OnErr result (self.new.faults ≡ self.old.faults + 1) }
    {
        match &mut self.place {
            Place::Buffer(buf) => into.copy_from_slice(buf.bytes()),
            Place::Planned(planned) => return planned.read(call, into),
            Place::Spare(_) | Place::Out => into.copy_from_slice(zero_bytes()),
        }
        Ok(())
    }

    /// Writes the bytes, at the call with this number.
    ///
    /// # Errors
    /// `Failed` where that call is to fail. It leaves the first 256 bytes new and the rest old.
    pub(crate) fn write(&mut self, call: u64, bytes: &[u8]) -> Result<(), Failed>
        requires size { length bytes.now ≡ PAGE_BYTES }
        requires few_faults { self.old.faults < 2 ^ 64 - 1 }
        ensures fails { IsErr result ↔ Contains self.old.calls call }
        ensures bytes { OnOk result (self.new.bytes ≡ bytes.now) }
        ensures torn { OnErr result (self.new.bytes ≡ take 256 bytes.now ++ drop 256 self.old.bytes) }
        ensures size { length self.new.bytes ≡ PAGE_BYTES }
        ensures calls { self.new.calls ≡ self.old.calls }
        ensures ok { OnOk result (self.new.faults ≡ self.old.faults) }
        ensures failed { OnErr result (self.new.faults ≡ self.old.faults + 1) }
    {
        match &mut self.place {
            Place::Buffer(buf) => {
                buf.bytes_mut().copy_from_slice(bytes);
                Ok(())
            }
            Place::Planned(planned) => planned.write(call, bytes),
            Place::Spare(_) | Place::Out => {
                let spare = spare_at(mem::replace(&mut self.place, Place::Out));
                self.place = Place::Buffer(filled(spare, bytes));
                Ok(())
            }
        }
    }
}

/// The bytes of a buffer that wasn't written.
fn zero_bytes() -> &'static [u8]
    ensures bytes { result.now ≡ replicate PAGE_BYTES 0 }
    ensures size { length result.now ≡ PAGE_BYTES }
{
    &ZEROS
}

/// The part that there is for the bytes.
fn spare_at(place: Place) -> SpareBuf
    requires { IsSpare place }
{
    match place {
        Place::Spare(spare) => spare,
        Place::Buffer(_) | Place::Planned(_) | Place::Out => unreachable!(),
    }
}

/// A buffer of the part, with these bytes.
#[inline(never)]
fn filled(spare: SpareBuf, bytes: &[u8]) -> PageBuf
    requires { length bytes.now ≡ PAGE_BYTES }
    ensures { result.bytes ≡ bytes.now }
{
    let mut buf = spare.fill();
    buf.bytes_mut().copy_from_slice(bytes);
    buf
}
