ghost use Rattle.std.specs.Prelude.{◌≡◌, ◌≢◌, All, IfOk, length, map};
ghost use Rattle.std.specs.Str.{IsUtf8};
ghost use Rattle.program_call.specs.ProgramTells.{bytes_view};
ghost use Rattle.replay_cli.specs.Commands.{Asks, HasInput, IsDoneStatus, Offers};
ghost use Rattle.replay_cli.specs.declared.ways.Way.{Way};
ghost use Rattle.replay_cli.specs.declared.words.Command.{Command};
ghost use Rattle.command_messages.specs.LineFaults.{HoldsOfWords, Quotes};
ghost use Rattle.neqysbar_c.specs.Call.{HasRun, filled};
ghost use Rattle.neqysbar_c.specs.Message.{HasMessage};
ghost use Rattle.neqysbar_c.specs.Words.{IsCommandLine, words_of};

use crate::words::words_in;
use arrayvec::ArrayVec;
use command_ends::Status;
use command_messages::{LineFault, quoted_fault};
use program_call::{message_text, run_bytes, run_bytes_and_tell};
use std::alloc::Global;
use vm_types::NoMemory;

/// Runs the command line over the input, and returns its status and the bytes that it writes.
///
/// # Errors
/// `NoMemory` if memory ran out for the words or for the bytes that are written.
pub(crate) fn run_line(
    alloc: Global,
    line: &[u8],
    input: &[u8],
) -> Result<(Status, Vec<u8>), NoMemory>
    ensures run { IfOk result (λ run. HasRun line.now input.now run.0.0 run.1.items) }
    ensures complete { (command : Command) → All IsUtf8 (words_of line.now) → Asks (words_of line.now) command → Offers Way.One command → HasInput command (bytes_view input.now)
        → IfOk result (λ run. IsDoneStatus command run.0.0) }
    ensures no_failure { IfOk result (λ run. (run.0.0 ≢ 3) × ((run.0.0 ≢ 4) × (run.0.0 ≢ 6))) }
{
    let words = words_in(alloc, line)?;
    run_bytes(alloc, words.as_slice(), input)
}

/// What is wrong with a command line of which these words are handed over, if it is a faulty one. Keeps the first bytes
/// of the word that the message quotes. Doesn't allocate.
fn fault_of(line: &[u8], words: &[&str], kept: &mut ArrayVec<u8, 80>) -> LineFault
    requires { IsCommandLine line.now (map (λ word. word.now) words.now) }
    ensures holds { HoldsOfWords (words_of line.now) result }
    ensures quotes { Quotes (words_of line.now) result kept.new.items }
{
    if words.is_empty() && !line.is_empty() {
        return LineFault::NotText;
    }
    quoted_fault(words, kept)
}

/// Runs the command line over the input, and returns its status, the bytes that it writes, and the message beside them.
///
/// # Errors
/// `NoMemory` if memory ran out for the words, for the bytes that are written or for the message.
pub(crate) fn run_line_and_tell(
    alloc: Global,
    line: &[u8],
    input: &[u8],
) -> Result<(Status, Vec<u8>, Vec<u8>), NoMemory>
    ensures run { IfOk result (λ run. HasRun line.now input.now run.0.0 run.1.items) }
    ensures complete { (command : Command) → All IsUtf8 (words_of line.now) → Asks (words_of line.now) command → Offers Way.One command → HasInput command (bytes_view input.now)
        → IfOk result (λ run. IsDoneStatus command run.0.0) }
    ensures no_failure { IfOk result (λ run. (run.0.0 ≢ 3) × ((run.0.0 ≢ 4) × (run.0.0 ≢ 6))) }
    ensures message { IfOk result (λ run. HasMessage line.now input.now run.0.0 run.1.items run.2.items) }
{
    let words = words_in(alloc, line)?;
    let mut kept = ArrayVec::new();
    let (status, wrong, text) = run_bytes_and_tell(alloc, words.as_slice(), input, &mut kept)?;
    if status.0 == 1 {
        let fault = fault_of(line, words.as_slice(), &mut kept);
        let message = message_text(alloc, 1, None, Some(fault), &kept)?;
        return Ok((status, text, message));
    }
    let message = message_text(alloc, status.0, wrong, None, &kept)?;
    Ok((status, text, message))
}

/// Writes the text's first bytes into the buffer, as many as it has room for, and returns the text's
/// length, in bytes. What is behind a shorter text stays. Doesn't allocate.
pub(crate) fn fill(buffer: &mut [u8], text: &[u8]) -> usize
    ensures number { result ≡ length text.now }
    ensures filled { buffer.new ≡ filled buffer.old text.now }
{
    let count = text.len().min(buffer.len());
    buffer[..count].copy_from_slice(&text[..count]);
    text.len()
}
