ghost use Rattle.std.specs.Prelude.{◌≡◌, ◌+◌, ◌^◌, ◌<◌, ◌≤◌, ◌++◌, ◌↔◌, length, take, drop, Some, true, refl, IfOk, OnOk, OnErr, IsErr, IsTrue, Contains, if◌then◌else◌};
ghost use Rattle.vm_types.specs.declared.limits.TheConstants.{PAGE_BYTES};

use disk_trait::{Block, is_due, write_half};
use std::alloc::Global;
use vm_types::{Failed, NoMemory};

/// A block in memory of its own, which is freed with it. It fails at the calls that it was made to fail at
/// and at no other.
#[derive(Drop)]
pub(crate) struct SureBlock {
    bytes: Vec<u8>,
    calls: Vec<u32>,
    reads: u64,
    writes: u64,
    faults: u64,
    ghost whole: { length bytes.items ≡ PAGE_BYTES },
    ghost few_calls: { reads + writes ≤ 2 ^ 48 },
    ghost few_faults: { faults ≤ reads + writes },
}

impl SureBlock {
    /// A block of these 512 bytes, which is to fail at these calls, not read or written so far.
    ///
    /// # Errors
    /// `NoMemory` if memory ran out.
    pub(crate) fn new(alloc: Global, bytes: &[u8], calls: &[u32]) -> Result<SureBlock, NoMemory>
        requires { length bytes.now ≡ PAGE_BYTES }
        ensures bytes { IfOk result (λ b. b.bytes.items ≡ bytes.now) }
        ensures calls { IfOk result (λ b. b.calls.items ≡ calls.now) }
        ensures reads { IfOk result (λ b. b.reads ≡ 0) }
        ensures writes { IfOk result (λ b. b.writes ≡ 0) }
        ensures faults { IfOk result (λ b. b.faults ≡ 0) }
    {
        let bytes = Vec::from_slice(alloc, bytes)?;
        let calls = Vec::from_slice(alloc, calls)?;
        Ok(SureBlock {
            bytes,
            calls,
            reads: 0,
            writes: 0,
            faults: 0,
        })
    }

    /// Whether its next call is to fail.
    fn fails_next(&self) -> bool
        requires { self.now.reads + self.now.writes < 2 ^ 48 }
        ensures { IsTrue result ↔ Contains self.now.calls.items (self.now.reads + self.now.writes + 1) }
    {
        is_due(&self.calls, self.reads + self.writes + 1)
    }
}

impl Block for SureBlock {
    ghost use Rattle.std.proofs.Common.{lit<};
    ghost use Rattle.std.proofs.Math.Nat.{le_trans, lt_of_le_of_lt};

    ghost tells = { record { content = true; plan = true } };

    ghost seen = { λ b. record { content = Some b.bytes.items; plan = Some b.calls.items; reads = b.reads; writes = b.writes; faults = b.faults } };

    ghost any_content = { λ b. (b.bytes.items, b.whole, refl) };

    ghost told_plan = { λ _. refl };

    ghost few_faults = { λ b. lt_of_le_of_lt (le_trans b.few_faults b.few_calls) (lit< tt) };

    fn read(&mut self, buf: &mut [u8]) -> Result<(), Failed>
        requires size { length buf.old ≡ PAGE_BYTES }
        requires few_calls { self.old.reads + self.old.writes < 2 ^ 48 }
        ensures fails { IsErr result ↔ Contains self.old.calls.items (self.old.reads + self.old.writes + 1) }
        ensures bytes { OnOk result (buf.new ≡ self.old.bytes.items) }
        ensures content { self.new.bytes.items ≡ self.old.bytes.items }
        ensures plan { self.new.calls.items ≡ self.old.calls.items }
        ensures reads { self.new.reads ≡ self.old.reads + 1 }
        ensures writes { self.new.writes ≡ self.old.writes }
        ensures ok { OnOk result (self.new.faults ≡ self.old.faults) }
        ensures failed { OnErr result (self.new.faults ≡ self.old.faults + 1) }
    {
        let due = self.fails_next();
        self.reads += 1;
        if due {
            self.faults += 1;
            return Err(Failed);
        }
        buf.copy_from_slice(&self.bytes);
        Ok(())
    }

    /// A write that fails leaves the first 256 bytes new and the rest old.
    fn write(&mut self, bytes: &[u8]) -> Result<(), Failed>
        requires size { length bytes.now ≡ PAGE_BYTES }
        requires few_calls { self.old.reads + self.old.writes < 2 ^ 48 }
        ensures fails { IsErr result ↔ Contains self.old.calls.items (self.old.reads + self.old.writes + 1) }
        ensures content { OnOk result (self.new.bytes.items ≡ bytes.now) }
        ensures torn { OnErr result (self.new.bytes.items ≡ take 256 bytes.now ++ drop 256 self.old.bytes.items) }
        ensures plan { self.new.calls.items ≡ self.old.calls.items }
        ensures reads { self.new.reads ≡ self.old.reads }
        ensures writes { self.new.writes ≡ self.old.writes + 1 }
        ensures ok { OnOk result (self.new.faults ≡ self.old.faults) }
        ensures failed { OnErr result (self.new.faults ≡ self.old.faults + 1) }
    {
        let due = self.fails_next();
        self.writes += 1;
        if due {
            self.faults += 1;
            write_half(&mut self.bytes, bytes);
            return Err(Failed);
        }
        self.bytes.copy_from_slice(bytes);
        Ok(())
    }

    fn faults(&self) -> u64 {
        self.faults
    }
}
