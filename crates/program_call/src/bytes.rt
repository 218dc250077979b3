ghost use Rattle.std.specs.Prelude.{◌≡◌, ◌≢◌, Some, IfOk, refl};
ghost use Rattle.command_ends.specs.Wrongs.{IsWrong, IsWrongText};
ghost use Rattle.replay_cli.specs.Commands.{Asks, HasInput, IsDoneStatus, Offers, texts};
ghost use Rattle.replay_cli.specs.declared.ways.Way.{Way};
ghost use Rattle.replay_cli.specs.declared.words.Command.{Command};
ghost use Rattle.program_call.specs.ProgramTells.{TellsOfBytes, bytes_view};

use crate::sure_depot::SureDepot;
use arrayvec::ArrayVec;
use command_calls::CallEnds;
use command_ends::{Status, Wrong};
use outside_io::{Source, VecSink};
use replay_cli::run_one_and_tell;
use std::alloc::Global;
use vm_types::{Failed, NoMemory};

/// A slice of bytes as a source. The bytes left are known, and no read fails.
#[derive(Drop)]
pub struct BytesSource<'a> {
    left: &'a [u8],
}

impl<'a> BytesSource<'a> {
    /// All bytes of the slice are left. Doesn't allocate.
    pub fn new(bytes: &'a [u8]) -> BytesSource<'a>
        ensures { (⟦<BytesSource<'a> as Source>⟧.seen result).left ≡ Some bytes.now }
    {
        BytesSource { left: bytes }
    }
}

impl Source for BytesSource<'_> {
    ghost seen = { λ s. record { left = Some s.left.now; failures = 0 } };

    fn read(&mut self, buf: &mut [u8]) -> Result<usize, Failed> {
        let count = self.left.len().min(buf.len());
        let (front, rest) = self.left.split_at(count);
        buf[..count].copy_from_slice(front);
        self.left = rest;
        Ok(count)
    }
}

/// As `run_bytes`, and answers besides what is wrong with the input, if anything is, as `run_one_and_tell` does. The
/// first 80 bytes of a faulty line are kept in `kept`.
///
/// # Errors
/// `NoMemory` if memory ran out for the bytes that are written.
pub fn run_bytes_and_tell(
    alloc: Global,
    words: &[&str],
    input: &[u8],
    kept: &mut ArrayVec<u8, 80>,
) -> Result<(Status, Option<Wrong>, Vec<u8>), NoMemory>
    // What is written is the text that goes with the status, as `run_bytes` says.
    ensures told { IfOk result (λ run. TellsOfBytes (texts words.now) input.now run.0.0 run.2.items) }
    ensures complete { (command : Command) → Asks (texts words.now) command → Offers Way.One command → HasInput command (bytes_view input.now)
        → IfOk result (λ run. IsDoneStatus command run.0.0) }
    ensures no_failure { IfOk result (λ run. (run.0.0 ≢ 3) × (run.0.0 ≢ 4) × (run.0.0 ≢ 6)) }
    // The text that was written says the same of the input, and of its faulty line the first bytes were kept.
    ensures wrong { IfOk result (λ run. IsWrong run.1 run.0.0 run.2.items) }
    ensures kept { IfOk result (λ run. IsWrongText run.1 (Some input.now) kept.new.items) }
{
    let mut ends = CallEnds {
        source: BytesSource::new(input),
        output: VecSink::new(alloc),
        depot: SureDepot::new(alloc),
    };
    let told = run_one_and_tell(alloc, words, &mut ends, kept);
    if told.0.0 == 4 {
        return Err(NoMemory);
    }
    Ok((told.0, told.1, ends.output.into_bytes()))
}

/// Runs the command that the words name over the bytes and over blocks in memory, and returns its
/// status and the bytes that it writes. No read and no write fails and each block is made, so the
/// status is none of 3, 4 and 6. It runs on one thread: `replay` is no command here, and its status 1.
///
/// # Examples
/// A trace without requests; what comes back is the report and the status line:
///
/// ```
/// let trace = b"VMTRACE 1\nFRAMES 8\nPAGEFILE 4\nPROCESS A 4 4 4 0\nBODY\nEND\n";
/// let (status, text) = run_bytes(rt.alloc(), &["serial"], trace)?;
/// assert_eq!(rt; status, Status(0));
/// assert_eq!(rt; text.as_slice(), b"PFN AT 0\n\
/// FREE 8 MODIFIED 0 BAD 0 RELEASE 0 READERROR 0 WRITING 0 READING 0 ACTIVE 0\n\
/// PAGEFILE 4 CHARGED 0 ASSIGNED 0\n\
/// PROCESS A RESIDENT COUNT 0 LIMIT 4\n\
/// STATUS 0\n");
/// ```
///
/// # Errors
/// `NoMemory` if memory ran out for the bytes that are written.
pub fn run_bytes(alloc: Global, words: &[&str], input: &[u8]) -> Result<(Status, Vec<u8>), NoMemory>
    // The headline: what is written is the text that goes with the status, by the words, the bytes and
    // the blocks that were given back.
    ensures told { IfOk result (λ run. TellsOfBytes (texts words.now) input.now run.0.0 run.1.items) }
    // If the words ask for a command and the bytes are what it reads, it did what was asked, with dirty
    // pages left or with none, or found a line of a log that isn't legal, or memory ran out.
    ensures complete { (command : Command) → Asks (texts words.now) command → Offers Way.One command → HasInput command (bytes_view input.now)
        → IfOk result (λ run. IsDoneStatus command run.0.0) }
    ensures no_failure { IfOk result (λ run. (run.0.0 ≢ 3) × (run.0.0 ≢ 4) × (run.0.0 ≢ 6)) }
{
    let mut kept = ArrayVec::new();
    let (status, _, text) = run_bytes_and_tell(alloc, words, input, &mut kept)?;
    Ok((status, text))
}
