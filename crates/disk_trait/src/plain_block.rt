ghost use Rattle.std.specs.Prelude.{◌≡◌, ◌^◌, ◌<◌, length, true, false, refl, IfOk};
ghost use Rattle.vm_types.specs.declared.limits.TheConstants.{PAGE_BYTES};

use crate::block::Block;
use std::alloc::Global;
use vm_types::{Failed, NoMemory};

/// A block in memory that never fails. Its plan is not known.
#[derive(Drop)]
pub struct PlainBlock {
    bytes: Vec<u8>,
    reads: u64,
    writes: u64,
    ghost whole: { length bytes.items ≡ PAGE_BYTES },
}

impl PlainBlock {
    ghost use Rattle.disk_trait.specs.PlainBlock.{bytes_of, reads_of, writes_of};

    /// A block of these 512 bytes, not read or written so far.
    ///
    /// # Errors
    /// `NoMemory` for want of memory.
    pub(crate) fn new(alloc: Global, bytes: &[u8]) -> Result<PlainBlock, NoMemory>
        requires { length bytes.now ≡ PAGE_BYTES }
        ensures bytes { IfOk result (λ b. bytes_of b ≡ bytes.now) }
        ensures reads { IfOk result (λ b. reads_of b ≡ 0) }
        ensures writes { IfOk result (λ b. writes_of b ≡ 0) }
    {
        let bytes = Vec::from_slice(alloc, bytes)?;
        Ok(PlainBlock {
            bytes,
            reads: 0,
            writes: 0,
        })
    }
}

impl Block for PlainBlock {
    ghost use Rattle.std.proofs.Common.{lit<};
    ghost use Rattle.disk_trait.specs.PlainBlock.{bytes_of, seen_of};

    ghost tells = { record { content = true; plan = false } };

    ghost seen = { seen_of };

    ghost any_content = { λ b. (bytes_of b, b.whole, refl) };

    ghost told_plan = { λ _. refl };

    ghost few_faults = { λ _. lit< tt };

    fn read(&mut self, buf: &mut [u8]) -> Result<(), Failed> {
        self.reads += 1;
        buf.copy_from_slice(&self.bytes);
        Ok(())
    }

    fn write(&mut self, bytes: &[u8]) -> Result<(), Failed> {
        self.writes += 1;
        self.bytes.copy_from_slice(bytes);
        Ok(())
    }

    fn faults(&self) -> u64 {
        0
    }
}
