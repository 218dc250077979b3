ghost use Rattle.std.specs.Prelude.{◌≡◌, ◌+◌, ◌^◌, ◌<◌, ◌≤◌, ◌++◌, ◌↔◌, length, take, drop, true, refl, IsErr, OnOk, OnErr};
ghost use Rattle.vm_types.specs.declared.limits.TheConstants.{PAGE_BYTES};

use crate::block::Block;
use crate::body::Body;
use vm_types::Failed;

/// A block in memory, which fails at the calls that it was made to fail at and at no other. Its memory
/// isn't touched as long as its bytes are zeros that no call wrote.
#[derive(Drop)]
pub struct MemoryBlock {
    reads: u64,
    writes: u64,
    body: Body,
    ghost whole: { length body.bytes ≡ PAGE_BYTES },
    ghost few_calls: { reads + writes ≤ 2 ^ 48 },
    ghost few_faults: { body.faults ≤ reads + writes },
}

impl MemoryBlock {
    ghost use Rattle.disk_trait.specs.MemoryBlock.{bytes_of, plan_of, reads_of, writes_of, faults_of, IsDueToFail};

    /// A block of these bytes and calls, not read or written so far.
    pub(crate) fn new(body: Body) -> MemoryBlock
        requires whole { length body.bytes ≡ PAGE_BYTES }
        requires unused { body.faults ≡ 0 }
        ensures bytes { bytes_of result ≡ body.bytes }
        ensures plan { plan_of result ≡ body.calls }
        ensures reads { reads_of result ≡ 0 }
        ensures writes { writes_of result ≡ 0 }
        ensures faults { faults_of result ≡ 0 }
    {
        MemoryBlock {
            reads: 0,
            writes: 0,
            body,
        }
    }

    /// Its 512 bytes. Takes no memory.
    pub fn bytes(&self) -> &[u8]
        ensures bytes { result.now ≡ bytes_of self.now }
        ensures size { length result.now ≡ PAGE_BYTES }
    {
        self.body.bytes()
    }

    /// How often it was read. Takes no memory.
    pub fn reads(&self) -> u64
        ensures { result ≡ reads_of self.now }
    {
        self.reads
    }

    /// How often it was written. Takes no memory.
    pub fn writes(&self) -> u64
        ensures { result ≡ writes_of self.now }
    {
        self.writes
    }
}

impl Block for MemoryBlock {
    ghost use Rattle.disk_trait.specs.MemoryBlock.{bytes_of, plan_of, reads_of, writes_of, faults_of, seen_of, IsDueToFail};
    ghost use Rattle.std.proofs.Common.{lit<};
    ghost use Rattle.std.proofs.Math.Nat.{le_trans, lt_of_le_of_lt};

    ghost tells = { record { content = true; plan = true } };

    ghost seen = { seen_of };

    ghost any_content = { λ b. (bytes_of b, b.whole, refl) };

    ghost told_plan = { λ _. refl };

    ghost few_faults = { λ b. lt_of_le_of_lt (le_trans b.few_faults b.few_calls) (lit< tt) };

    fn read(&mut self, buf: &mut [u8]) -> Result<(), Failed>
        requires size { length buf.old ≡ PAGE_BYTES }
        requires few_calls { reads_of self.old + writes_of self.old < 2 ^ 48 }
        ensures fails { IsErr result ↔ IsDueToFail self.old }
        ensures bytes { OnOk result (buf.new ≡ bytes_of self.old) }
        ensures content { bytes_of self.new ≡ bytes_of self.old }
        ensures plan { plan_of self.new ≡ plan_of self.old }
        ensures reads { reads_of self.new ≡ reads_of self.old + 1 }
        ensures writes { writes_of self.new ≡ writes_of self.old }
        ensures ok { OnOk result (faults_of self.new ≡ faults_of self.old) }
        ensures failed { OnErr result (faults_of self.new ≡ faults_of self.old + 1) }
    {
        self.reads += 1;
        self.body.read(self.reads + self.writes, buf)
    }

    /// A write that fails leaves the first 256 bytes new and the rest old.
    fn write(&mut self, bytes: &[u8]) -> Result<(), Failed>
        requires size { length bytes.now ≡ PAGE_BYTES }
        requires few_calls { reads_of self.old + writes_of self.old < 2 ^ 48 }
        ensures fails { IsErr result ↔ IsDueToFail self.old }
        ensures content { OnOk result (bytes_of self.new ≡ bytes.now) }
        ensures torn { OnErr result (bytes_of self.new ≡ take 256 bytes.now ++ drop 256 (bytes_of self.old)) }
        ensures plan { plan_of self.new ≡ plan_of self.old }
        ensures reads { reads_of self.new ≡ reads_of self.old }
        ensures writes { writes_of self.new ≡ writes_of self.old + 1 }
        ensures ok { OnOk result (faults_of self.new ≡ faults_of self.old) }
        ensures failed { OnErr result (faults_of self.new ≡ faults_of self.old + 1) }
    {
        self.writes += 1;
        self.body.write(self.reads + self.writes, bytes)
    }

    fn faults(&self) -> u64 {
        self.body.faults()
    }
}
