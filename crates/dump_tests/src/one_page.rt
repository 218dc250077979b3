ghost use Rattle.std.specs.Prelude.{IfOk};
ghost use Rattle.dump_bytes.specs.Bounds.{IsDump};
ghost use Rattle.dump_bytes.specs.Dumped.{dumped};

use dump_bytes::{Dump, DumpFault, read_dump};
use outside_io::MemorySource;
use std::alloc::{AllocError, Global};

/// The state after a run of one process, which has written to one page: 8 frames, the page file with
/// 4 blocks, of which one is charged, and a ring of 4 slots with limit 4.
pub const ONE_PAGE: [u8; 288] = [
    // The letters; 8 frames, 7 free, none modified, 1 process, 4 blocks, 1 charged, none assigned.
    86, 77, 83, 68, 85, 77, 80, 49, 0, 0, 0, 8, 0, 0, 0, 7, 0, 0, 0, 0, 0, 0, 0, 1, 0, 0, 0, 4, //
    0, 0, 0, 1, 0, 0, 0, 0, //
    // Frame 0 is active and modified, with page 0 of process 0, and 1 reference and 1 share.
    7, 1, 1, 0, 0, 0, 0, 0, 0, 0, 0, 0, 0, 0, 0, 1, 0, 0, 0, 1, //
    // Frames 1 to 7 are free and empty.
    0, 0, 0, 0, 0, 0, 0, 0, 0, 0, 0, 0, 0, 0, 0, 0, 0, 0, 0, 0, //
    0, 0, 0, 0, 0, 0, 0, 0, 0, 0, 0, 0, 0, 0, 0, 0, 0, 0, 0, 0, //
    0, 0, 0, 0, 0, 0, 0, 0, 0, 0, 0, 0, 0, 0, 0, 0, 0, 0, 0, 0, //
    0, 0, 0, 0, 0, 0, 0, 0, 0, 0, 0, 0, 0, 0, 0, 0, 0, 0, 0, 0, //
    0, 0, 0, 0, 0, 0, 0, 0, 0, 0, 0, 0, 0, 0, 0, 0, 0, 0, 0, 0, //
    0, 0, 0, 0, 0, 0, 0, 0, 0, 0, 0, 0, 0, 0, 0, 0, 0, 0, 0, 0, //
    0, 0, 0, 0, 0, 0, 0, 0, 0, 0, 0, 0, 0, 0, 0, 0, 0, 0, 0, 0, //
    // The free list.
    0, 0, 0, 1, 0, 0, 0, 2, 0, 0, 0, 3, 0, 0, 0, 4, 0, 0, 0, 5, 0, 0, 0, 6, 0, 0, 0, 7, //
    // The process is resident; 4 slots, hand 1, limit 4.
    0, 0, 0, 0, 0, 0, 0, 4, 0, 0, 0, 1, 0, 0, 0, 4, //
    // Slot 0 has page 0, the others are empty.
    1, 0, 0, 0, 0, 0, 0, 0, 0, 0, 0, 0, 0, 0, 0, 0, //
    0, 0, 0, 0, 0, 0, 0, 0, 0, 0, 0, 0, 0, 0, 0, 0, //
    // One valid entry: page 0 with the word A4000000. No flight.
    0, 0, 0, 1, 0, 0, 0, 0, 0xa4, 0, 0, 0, 0, 0, 0, 0, //
];

/// Reads these bytes, with calls that fail.
pub fn read(
    alloc: Global,
    bytes: Vec<u8>,
    fails: &[u32],
) -> Result<Result<Dump, DumpFault>, AllocError>
    ensures { IfOk result (λ answer. IfOk answer (λ dump. IsDump (dumped dump))) }
{
    let mut source = MemorySource::new(bytes, fails.to_vec(alloc)?);
    Ok(read_dump(alloc, &mut source))
}

/// The same dump with another byte at one place.
pub fn changed(alloc: Global, place: usize, byte: u8) -> Result<Vec<u8>, AllocError> {
    let mut bytes = ONE_PAGE.to_vec(alloc)?;
    if place < bytes.len() {
        bytes[place] = byte;
    }
    Ok(bytes)
}
