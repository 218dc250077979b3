ghost use Rattle.std.specs.Prelude.{◌≡◌, ◌+◌, ◌-◌, ◌^◌, ◌<◌, ◌++◌, ◌↔◌, length, take, drop, IfOk, OnOk, OnErr, IsTrue, IsErr, Contains, if◌then◌else◌};
ghost use Rattle.vm_types.specs.declared.limits.TheConstants.{PAGE_BYTES};

use page_pool::PageBuf;
use std::alloc::Global;
use vm_types::{Failed, NoMemory};

/// The bytes of a block that is to fail, the numbers of the calls at which it is to, and how often it has failed.
#[derive(Drop)]
pub(crate) struct PlannedBuf {
    buf: PageBuf,
    calls: Vec<u32>,
    faults: u64,
}

impl PlannedBuf {
    /// The buffer with these calls, none of which has failed so far.
    ///
    /// # Errors
    /// `NoMemory` for want of memory.
    pub(crate) fn new(alloc: Global, buf: PageBuf, calls: &[u32]) -> Result<PlannedBuf, NoMemory>
        ensures bytes { IfOk result (λ b. b.buf.bytes ≡ buf.bytes) }
        ensures calls { IfOk result (λ b. b.calls.items ≡ calls.now) }
        ensures faults { IfOk result (λ b. b.faults ≡ 0) }
    {
        let calls = Vec::from_slice(alloc, calls)?;
        Ok(PlannedBuf {
            buf,
            calls,
            faults: 0,
        })
    }

    /// Its 512 bytes.
    pub(crate) fn bytes(&self) -> &[u8]
        ensures bytes { result.now ≡ self.now.buf.bytes }
        ensures size { length result.now ≡ PAGE_BYTES }
    {
        self.buf.bytes()
    }

    /// How often it has failed.
    pub(crate) fn faults(&self) -> u64
        ensures { result ≡ self.now.faults }
    {
        self.faults
    }

    /// Reads the bytes, at the call with this number.
    ///
    /// # Errors
    /// `Failed` where that call is to fail.
    pub(crate) fn read(&mut self, call: u64, into: &mut [u8]) -> Result<(), Failed>
        requires size { length into.old ≡ PAGE_BYTES }
        requires few_faults { self.old.faults < 2 ^ 64 - 1 }
        ensures fails { IsErr result ↔ Contains self.old.calls.items call }
        ensures read { OnOk result (into.new ≡ self.old.buf.bytes) }
        ensures bytes { self.new.buf.bytes ≡ self.old.buf.bytes }
        ensures calls { self.new.calls.items ≡ self.old.calls.items }
        ensures ok { OnOk result (self.new.faults ≡ self.old.faults) }
        ensures failed { OnErr result (self.new.faults ≡ self.old.faults + 1) }
    {
        if self.fails_at(call) {
            return Err(Failed);
        }
        into.copy_from_slice(self.buf.bytes());
        Ok(())
    }

    /// Writes the bytes, at the call with this number.
    ///
    /// # Errors
    /// `Failed` where that call is to fail. It leaves the first 256 bytes new and the rest old.
    pub(crate) fn write(&mut self, call: u64, bytes: &[u8]) -> Result<(), Failed>
        requires size { length bytes.now ≡ PAGE_BYTES }
        requires few_faults { self.old.faults < 2 ^ 64 - 1 }
        ensures fails { IsErr result ↔ Contains self.old.calls.items call }
        ensures bytes { OnOk result (self.new.buf.bytes ≡ bytes.now) }
        ensures torn { OnErr result (self.new.buf.bytes ≡ take 256 bytes.now ++ drop 256 self.old.buf.bytes) }
        ensures size { length self.new.buf.bytes ≡ PAGE_BYTES }
        ensures calls { self.new.calls.items ≡ self.old.calls.items }
        ensures ok { OnOk result (self.new.faults ≡ self.old.faults) }
        ensures failed { OnErr result (self.new.faults ≡ self.old.faults + 1) }
    {
        if self.fails_at(call) {
            write_half(self.buf.bytes_mut(), bytes);
            return Err(Failed);
        }
        self.buf.bytes_mut().copy_from_slice(bytes);
        Ok(())
    }

    /// Whether the call with this number is to fail. If it is, the failure is counted.
    fn fails_at(&mut self, call: u64) -> bool
        requires { self.old.faults < 2 ^ 64 - 1 }
        ensures due { IsTrue result ↔ Contains self.old.calls.items call }
        ensures buf { self.new.buf ≡ self.old.buf }
        ensures calls { self.new.calls ≡ self.old.calls }
        ensures faults { self.new.faults ≡ (if result then self.old.faults + 1 else self.old.faults) }
    {
        let due = is_due(&self.calls, call);
        if due {
            self.faults += 1;
        }
        due
    }
}

/// Whether the call with this number, of those that are counted from 1, is one of the calls that are to
/// fail. Doesn't allocate.
#[inline]
pub fn is_due(fails: &[u32], call: u64) -> bool
    ensures { IsTrue result ↔ Contains fails.now call }
{
    fails.iter().any(|number| u64::from(*number) == call)
}

/// Writes the first 256 of the 512 bytes into the block, and leaves the rest of its 512 bytes as they are.
/// Doesn't allocate.
#[inline]
pub fn write_half(block: &mut [u8], bytes: &[u8])
    requires block_size { length block.old ≡ PAGE_BYTES }
    requires size { length bytes.now ≡ PAGE_BYTES }
    ensures bytes { block.new ≡ take 256 bytes.now ++ drop 256 block.old }
    ensures size { length block.new ≡ PAGE_BYTES }
{
    block[..256].copy_from_slice(&bytes[..256]);
}
