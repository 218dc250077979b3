ghost use Rattle.std.specs.Prelude.{◌≡◌};

use disk_trait::MakeFault;
use run_text::Report;
use vm_journal::Entry;
use vm_types::{Config, NoMemory, Page};

/// A run that has ended: its configuration, its entries, oldest first, how many of them stand before the
/// report, the report there, and the shared pages that were left dirty, in order of section and page.
#[derive(Debug, Drop)]
pub struct Finished {
    pub config: Config,
    pub entries: Vec<Entry>,
    pub at: u64,
    pub report: Report,
    pub dirty: Vec<Page>,
}

/// A run that has ended and whose entries were counted: how many there are, how many of each kind, in the
/// order of `What`, and the shared pages that were left dirty, in order of section and page.
#[derive(Debug, Drop)]
pub struct Counted {
    pub all: u64,
    pub kinds: [u64; 16],
    pub dirty: Vec<Page>,
}

/// Why a run did not end.
#[derive(Clone, Copy, Debug, PartialEq, Eq)]
pub enum RunFault {
    /// Memory ran out.
    NoMemory,
    /// The depot failed to make a block; its count of faults says so.
    DepotFault,
}

/// What a run gives, or why it did not end.
pub type RunResult<T> = Result<T, RunFault>;

impl From<NoMemory> for RunFault {
    ghost use Rattle.serial_run.specs.declared.finished.RunFault.{RunFault};

    ghost from_gives = { λ _ fault. fault ≡ RunFault.NoMemory };

    fn from(_error: NoMemory) -> RunFault {
        RunFault::NoMemory
    }
}

impl From<MakeFault> for RunFault {
    ghost use Rattle.serial_run.specs.declared.finished.RunFault.{RunFault};
    ghost use Rattle.serial_run.specs.Faults.{run_fault};

    ghost from_gives = { λ error fault. fault ≡ run_fault error };

    fn from(error: MakeFault) -> RunFault {
        match error {
            MakeFault::NoMemory => RunFault::NoMemory,
            MakeFault::Failed => RunFault::DepotFault,
        }
    }
}
