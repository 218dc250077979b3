ghost use Rattle.std.specs.Prelude.{◌≡◌};
ghost use Rattle.trace_reader.specs.declared.fault.TraceFault.TheVariants.{NoMemory};

use std::alloc::AllocError;
use thiserror::Error;
use trace_lines::Breach;

/// Why a trace gives no configuration.
#[derive(Clone, Copy, Debug, PartialEq, Eq, Error)]
pub enum TraceFault {
    /// Memory ran out.
    #[error("out of memory")]
    NoMemory,
    /// A read failed; the source's count of failures says so.
    #[error("the trace can't be read")]
    ReadFault,
    /// The first faulty line, by its number from 1, the first rule that it breaks and the word that breaks it.
    #[error("line {0} breaks a rule")]
    Line(u32, Breach),
    /// The text has no bytes.
    #[error("the text is empty")]
    Empty,
    /// The text has bytes, and ends without a faulty line and without END.
    #[error("the trace ends before its line END")]
    Unfinished,
}

impl From<AllocError> for TraceFault {
    ghost from_gives = { λ _ e. e ≡ NoMemory };

    fn from(_error: AllocError) -> TraceFault {
        TraceFault::NoMemory
    }
}

impl From<vm_types::NoMemory> for TraceFault {
    ghost from_gives = { λ _ e. e ≡ NoMemory };

    fn from(_error: vm_types::NoMemory) -> TraceFault {
        TraceFault::NoMemory
    }
}
