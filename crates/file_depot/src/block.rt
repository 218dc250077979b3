ghost use Rattle.std.specs.Prelude.{◌≡◌, ℕ, ◌+◌, ◌^◌, ◌≤◌, None, false, refl, replicate};
ghost use Rattle.vm_types.specs.declared.limits.TheConstants.{PAGE_BYTES};

use disk_trait::Block;
use std::fs::File;
use std::io;
use std::io::{Read, Write};
use std::rt::Files;
use vm_types::Failed;

/// A block that is a file, opened and closed at each call. Neither its bytes nor its plan are
/// known: that the file gives back what was written is up to the system.
#[derive(Drop)]
pub struct FileBlock<R: Files> {
    runtime: R,
    path: String,
    reads: u64,
    writes: u64,
    faults: u64,
    ghost few_calls: { reads + writes ≤ 2 ^ 48 },
    ghost few_faults: { faults ≤ reads + writes },
}

impl<R: Files> FileBlock<R> {
    /// The block that is the file of this path, not read or written so far. Takes no memory.
    pub(crate) fn new(runtime: R, path: String) -> FileBlock<R>
        ensures reads { result.reads ≡ 0 }
        ensures writes { result.writes ≡ 0 }
        ensures faults { result.faults ≡ 0 }
    {
        FileBlock {
            runtime,
            path,
            reads: 0,
            writes: 0,
            faults: 0,
        }
    }
}

/// Reads the file's first bytes into the whole buffer.
fn read_file<R: Files>(runtime: &R, path: &str, buf: &mut [u8]) -> io::Result<()> {
    File::open(runtime, path)?.read_exact(buf)
}

/// Writes the bytes over the first ones of a file that is there.
fn overwrite_file<R: Files>(runtime: &R, path: &str, bytes: &[u8]) -> io::Result<()> {
    let mut how = File::options();
    how.write(true);
    how.open(runtime, path)?.write_all(bytes)
}

/// Makes a file of these bytes, in place of one that is there.
pub(crate) fn create_file<R: Files>(runtime: &R, path: &str, bytes: &[u8]) -> io::Result<()> {
    File::create(runtime, path)?.write_all(bytes)
}

impl<R: Files + Drop + Send> Block for FileBlock<R> {
    ghost use Rattle.std.proofs.Common.{lit<};
    ghost use Rattle.std.proofs.Math.Nat.{le_trans, lt_of_le_of_lt};
    ghost use Rattle.std.proofs.lemmas.List.{length-replicate};
    ghost use Rattle.vm_types.specs.declared.limits.TheConstants.{PAGE_BYTES};

    ghost tells = { record { content = false; plan = false } };

    ghost seen = { λ b. record { content = None; plan = None; reads = b.reads; writes = b.writes; faults = b.faults } };

    ghost any_content = { λ _. (replicate PAGE_BYTES 0, length-replicate {A = ℕ} PAGE_BYTES 0, refl) };

    ghost told_plan = { λ _. refl };

    ghost few_faults = { λ b. lt_of_le_of_lt (le_trans b.few_faults b.few_calls) (lit< tt) };

    fn read(&mut self, buf: &mut [u8]) -> Result<(), Failed> {
        self.reads += 1;
        if read_file(&self.runtime, self.path.as_str(), buf).is_err() {
            self.faults += 1;
            return Err(Failed);
        }
        Ok(())
    }

    fn write(&mut self, bytes: &[u8]) -> Result<(), Failed> {
        self.writes += 1;
        if overwrite_file(&self.runtime, self.path.as_str(), bytes).is_err() {
            self.faults += 1;
            return Err(Failed);
        }
        Ok(())
    }

    fn faults(&self) -> u64 {
        self.faults
    }
}
