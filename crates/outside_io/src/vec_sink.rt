ghost use Rattle.std.specs.Prelude.{◌≡◌, [], Some};
ghost use Rattle.outside_io.specs.KeptIsLast.{all_is_handed_on};

use crate::sink::Sink;
use std::alloc::Global;
use vm_types::Failed;

/// A vector that grows as a sink. The bytes taken are known; a write fails if memory runs out.
#[derive(Drop)]
pub struct VecSink {
    bytes: Vec<u8>,
    faults: u64,
}

impl VecSink {
    /// Nothing is taken yet. Doesn't allocate.
    pub fn new(alloc: Global) -> VecSink
        ensures taken { (⟦<VecSink as Sink>⟧.seen result).taken ≡ Some [] }
        ensures faults { (⟦<VecSink as Sink>⟧.seen result).failures ≡ 0 }
    {
        VecSink {
            bytes: Vec::new(alloc),
            faults: 0,
        }
    }

    /// The bytes taken, in order. Doesn't allocate.
    pub fn into_bytes(self) -> Vec<u8>
        ensures { (⟦<VecSink as Sink>⟧.seen self).taken ≡ Some result.items }
    {
        self.bytes
    }
}

impl Sink for VecSink {
    ghost seen = { λ s. record { taken = Some s.bytes.items; kept = []; failures = s.faults; stalls = 0 } };

    fn write(&mut self, piece: &[u8]) -> Result<usize, Failed> {
        match self.bytes.extend_from_slice(piece) {
            Ok(()) => Ok(piece.len()),
            Err(_) => {
                self.faults = self.faults.saturating_add(1);
                Err(Failed)
            }
        }
    }

    fn flush(&mut self) -> Result<(), Failed> {
        Ok(())
    }

    ghost kept_is_last = { λ s. all_is_handed_on s.bytes.items };
}
