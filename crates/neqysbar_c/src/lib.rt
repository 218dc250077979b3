//! The program as a library for C and for what calls C: functions over bytes. It has no state and opens no
//! file, so calls may overlap.
#![tactic(auto)]

ghost use Rattle.std.specs.Prelude.{◌≡◌, ◌≢◌, All, length};
ghost use Rattle.std.specs.Str.{IsUtf8};
ghost use Rattle.vm_types.specs.Moved.{moved};
ghost use Rattle.program_call.specs.ProgramTells.{bytes_view};
ghost use Rattle.replay_cli.specs.Commands.{Asks, HasInput, IsDoneStatus, Offers};
ghost use Rattle.replay_cli.specs.declared.ways.Way.{Way};
ghost use Rattle.replay_cli.specs.declared.words.Command.{Command};
ghost use Rattle.neqysbar_c.specs.Call.{IsCall, filled};
ghost use Rattle.neqysbar_c.specs.Message.{IsToldCall};
ghost use Rattle.neqysbar_c.specs.Words.{words_of};

mod call;
mod told;
mod words;

use crate::call::{fill, run_line, run_line_and_tell};
pub use crate::told::Told;
use std::alloc::Global;

/// Runs the command that the words name over the input and over blocks in memory, and returns its
/// status: 0 to 8, and none of 3, 4 and 6. It runs on one thread: `replay` is no command here, and its
/// status 1.
///
/// The words are one text: each word is ended by a byte 0, and the last one there or at the text's end.
/// The program's own name isn't among them. If one isn't UTF-8, the command line is faulty: status 1.
///
/// The output's first bytes, as many as there is room for, are written into `output`; what is behind a
/// shorter output stays. Its whole length, in bytes, goes into `number`. If that is more than there was
/// room for, the caller makes room and calls again: the same words and input have the same output.
///
/// If memory ran out for the words or the output, the status is 7 and the number 0, and nothing is
/// written.
#[unsafe(no_mangle)]
pub extern "C" fn neqysbar_run(
    alloc: Global,
    line: &[u8],
    input: &[u8],
    output: &mut [u8],
    number: &mut usize,
) -> u8
    // What is written is the text that goes with the status, by the words and the input.
    ensures run { IsCall line.now input.now output.old output.new number.new result }
    // If the words ask for a command and the bytes are what it reads, it did what was asked, or memory ran out.
    ensures complete { (command : Command) → All IsUtf8 (words_of line.now) → Asks (words_of line.now) command → Offers Way.One command → HasInput command (bytes_view input.now)
        → IsDoneStatus command result }
    ensures no_failure { (result ≢ 3) × ((result ≢ 4) × (result ≢ 6)) }
{
    match run_line(alloc, line, input) {
        Ok((status, text)) => {
            *number = fill(output, text.as_slice());
            status.0
        }
        Err(_) => {
            *number = 0;
            7
        }
    }
}

/// As `neqysbar_run`, and writes besides the message that the program writes to standard error: what is wrong with
/// the words, and usage; or what is wrong with the input, its faulty line by its number, why, and its first bytes; or
/// that memory ran out. Where nothing is wrong there is none.
///
/// The message's first bytes, as many as there is room for, are written into `message`. Both whole lengths are
/// answered beside the status. If memory ran out for the words or a text, the status is 7, both lengths are 0, and
/// nothing is written.
#[unsafe(no_mangle)]
pub extern "C" fn neqysbar_run_with_message(
    alloc: Global,
    line: &[u8],
    input: &[u8],
    output: &mut [u8],
    message: &mut [u8],
) -> Told
    // What is written is the text that goes with the status, by the words and the input, and the message beside it.
    ensures run { IsToldCall line.now input.now (moved output.old output.new) (moved message.old message.new) (result.output, result.message) result.status }
    // If the words ask for a command and the bytes are what it reads, it did what was asked, or memory ran out.
    ensures complete { (command : Command) → All IsUtf8 (words_of line.now) → Asks (words_of line.now) command → Offers Way.One command → HasInput command (bytes_view input.now)
        → IsDoneStatus command result.status }
    ensures no_failure { (result.status ≢ 3) × ((result.status ≢ 4) × (result.status ≢ 6)) }
{
    match run_line_and_tell(alloc, line, input) {
        Ok((status, text, said)) => Told {
            status: status.0,
            output: fill(output, text.as_slice()),
            message: fill(message, said.as_slice()),
        },
        Err(_) => Told {
            status: 7,
            output: 0,
            message: 0,
        },
    }
}
