ghost use Rattle.std.specs.Prelude.{◌≡◌, ◌+◌, ◌-◌, ◌^◌, ◌<◌, length, is_some, OnOk, OnErr};
ghost use Rattle.vm_types.specs.declared.limits.TheConstants.{PAGE_BYTES};
ghost use Rattle.vm_types.specs.BlockView.{BlockView, Tells};
ghost use Rattle.disk_trait.specs.Told.{told, IsAnyContent};

use vm_types::Failed;

/// A block of 512 bytes on a disk, which may fail. Its reads and writes together are at most 2^48.
pub trait Block: Send + Drop {
    /// Whether the bytes, and the plan, of blocks of this type are known.
    ghost tells: { Tells };

    /// What is seen of it: its 512 bytes and its plan, where they are known, and the counts of its reads,
    /// writes and failures. A plan has the numbers of the calls that it was made to fail at: reads and
    /// writes, counted together from 1.
    ghost seen: { Self → BlockView };

    /// Reads the block into a buffer of 512 bytes. Takes no memory.
    ///
    /// # Errors
    /// `Failed` where the block failed. It has its content still, and the buffer any bytes.
    fn read(&mut self, buf: &mut [u8]) -> Result<(), Failed>
        requires size { length buf.old ≡ PAGE_BYTES }
        requires few_calls { (seen self.old).reads + (seen self.old).writes < 2 ^ 48 }
        ensures bytes { OnOk result ((seen self.old).content ≡ told tells.content buf.new) }
        ensures content { (seen self.new).content ≡ (seen self.old).content }
        ensures plan { (seen self.new).plan ≡ (seen self.old).plan }
        ensures reads { (seen self.new).reads ≡ (seen self.old).reads + 1 }
        ensures writes { (seen self.new).writes ≡ (seen self.old).writes }
        ensures ok { OnOk result ((seen self.new).faults ≡ (seen self.old).faults) }
        ensures failed { OnErr result ((seen self.old).faults < (seen self.new).faults) };

    /// Writes these 512 bytes to the block. Takes no memory.
    ///
    /// # Errors
    /// `Failed` where the block failed. It then has any 512 bytes.
    fn write(&mut self, bytes: &[u8]) -> Result<(), Failed>
        requires size { length bytes.now ≡ PAGE_BYTES }
        requires few_calls { (seen self.old).reads + (seen self.old).writes < 2 ^ 48 }
        ensures content { OnOk result ((seen self.new).content ≡ told tells.content bytes.now) }
        ensures torn { OnErr result (IsAnyContent tells.content (seen self.new).content) }
        ensures plan { (seen self.new).plan ≡ (seen self.old).plan }
        ensures reads { (seen self.new).reads ≡ (seen self.old).reads }
        ensures writes { (seen self.new).writes ≡ (seen self.old).writes + 1 }
        ensures ok { OnOk result ((seen self.new).faults ≡ (seen self.old).faults) }
        ensures failed { OnErr result ((seen self.old).faults < (seen self.new).faults) };

    /// How often it has failed. Takes no memory.
    fn faults(&self) -> u64
        ensures value { result ≡ (seen self.now).faults }
        ensures few { result < 2 ^ 64 - 1 };

    /// The bytes of all blocks of the type are known, or those of none; there are 512.
    ghost any_content: { (b : Self) → IsAnyContent tells.content (seen b).content };

    /// The plans of all blocks of the type are known, or those of none.
    ghost told_plan: { (b : Self) → is_some (seen b).plan ≡ tells.plan };

    /// The count of faults never comes to the end of its type, so each failure raises it.
    ghost few_faults: { (b : Self) → (seen b).faults < 2 ^ 64 - 1 };
}
