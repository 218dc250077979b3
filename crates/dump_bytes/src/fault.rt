ghost use Rattle.std.specs.Prelude.{◌≡◌};
ghost use Rattle.dump_bytes.specs.declared.fault.DumpFault.TheVariants.{NoMemory};

use std::alloc::AllocError;

/// Why no dump was read.
#[derive(Clone, Copy, Debug, PartialEq, Eq)]
pub enum DumpFault {
    /// Memory ran out, before anything was read.
    NoMemory,
    /// A read failed; the source's count of failures says so.
    ReadFault,
    /// This many bytes begin a dump. Either no dump goes on with the next one, or the input ends
    /// there and isn't a whole dump.
    Bad(u64),
}

impl From<AllocError> for DumpFault {
    ghost from_gives = { λ _ e. e ≡ NoMemory };

    fn from(_error: AllocError) -> DumpFault {
        DumpFault::NoMemory
    }
}
