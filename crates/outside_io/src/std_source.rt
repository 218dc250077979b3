ghost use Rattle.std.specs.Prelude.{◌≡◌, is_some, nat_lt};

use crate::source::Source;
use std::io;
use std::io::Read;
use vm_types::Failed;

/// One of std's readers as a source. The bytes left are known where the reader's type knows them.
#[derive(Debug, Drop)]
pub struct StdSource<R: Read> {
    reader: R,
    faults: u64,
    error: Option<io::Error>,
    ghost told: { is_some error ≡ nat_lt 0 faults },
}

impl<R: Read> StdSource<R> {
    /// No call has failed yet. Takes no memory.
    pub fn new(reader: R) -> StdSource<R>
        ensures left { (⟦<StdSource<R> as Source>⟧.seen result).left ≡ R.remaining reader }
        ensures faults { (⟦<StdSource<R> as Source>⟧.seen result).failures ≡ 0 }
    {
        StdSource {
            reader,
            faults: 0,
            error: None,
        }
    }

    /// Why the first call that failed did so, in the reader's words; `None` if none failed. Doesn't
    /// allocate.
    pub fn error(&self) -> Option<io::Error>
        ensures { is_some result ≡ nat_lt 0 (⟦<StdSource<R> as Source>⟧.seen self.now).failures }
    {
        self.error
    }
}

impl<R: Read> Source for StdSource<R> {
    ghost seen = { λ s. record { left = R.remaining s.reader; failures = s.faults } };

    fn read(&mut self, buf: &mut [u8]) -> Result<usize, Failed> {
        match self.reader.read(buf) {
            Ok(count) => Ok(count),
            Err(error) => {
                self.error = self.error.or(Some(error));
                self.faults = self.faults.saturating_add(1);
                Err(Failed)
            }
        }
    }
}
