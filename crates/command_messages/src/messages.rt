//! What is said beside the output.

ghost use Rattle.std.specs.Prelude.{◌≡◌, ◌+◌, ◌≤◌, ◌++◌, length, true, None};
ghost use Rattle.arrayvec.specs.ArrayVec.{array_vec_len};
ghost use Rattle.command_messages.specs.Texts.{Adds, AreWords};
ghost use Rattle.command_messages.specs.LineFaults.{missing_text, said_text, takes_text};
ghost use Rattle.command_messages.specs.Messages.{IsSaid, dump_message, fault_message, letters_text, line_message, message_of, status_message, usage_message, usage_text, wrong_message};

use crate::bounds::over_word;
use crate::faults::{CommandName, LineFault, LineOption};
use crate::lines::log_message;
use crate::marks::push_mark;
use crate::options::{command_with, words_of};
use crate::reasons::push_reason;
use crate::shown::push_shown;
use arrayvec::ArrayVec;
use command_ends::Wrong;
use outside_io::{Sink, write_whole};
use trace_reader::Breach;
use vm_text::{push_count, push_decimal, push_word};

const USAGE: &[u8] =
    b"neqysbar 1.0.0\nusage: neqysbar serial < TRACE\n           reads a trace and runs it; writes each entry, a report, the pages left dirty and the status\n       neqysbar replay < TRACE\n           reads a trace and runs it with a thread for each process, the writer and the swapper; writes what\n           serial writes, of one legal run\n       neqysbar study --process X --frames K < TRACE\n           reads a trace; writes what the references of process X, A to P, cost with K page frames, 1 to 1024\n       neqysbar make --seed N --procs P --refs R\n           reads nothing; makes a trace from the seed N, 0 to 4294967295, with P processes, 1 to 16, and R\n           references, 1 to 100000, and runs it; writes how many entries of each kind the run has\n       neqysbar check < TRACE-AND-LOG\n           reads a trace, a line LOG and a log; writes whether the log is legal, or its first line that isn't\n       neqysbar dump < TRACE > FILE\n           reads a trace and runs it up to the report; writes the dump of the page database there, in bytes\n       neqysbar show < FILE\n           reads a dump; writes what it holds, and each count in it that a recount doesn't give\nexample: neqysbar study --process A --frames 8 < examples/swapping.trace\n";

const EMPTY: &[u8] = b"neqysbar: the input is empty\n";

const UNDECLARED: &[u8] =
    b"neqysbar: the trace doesn't declare the process that --process names, so it has no references\n";

const UNFINISHED: &[u8] =
    b"neqysbar: the input ends before the line END of its trace, or before the line LOG that check reads behind END\n";

const TOO_LONG: &[u8] = b"neqysbar: the log has more lines than a log may have, 16777216\n";

// The message about a faulty line with these first bytes.
fn fault_message(number: u32, breach: Breach, text: &ArrayVec<u8, 80>) -> ArrayVec<u8, 768>
    ensures { result.items ≡ fault_message number breach text.now.items }
{
    let mut out = ArrayVec::new();
    push_word(&mut out, b"neqysbar: line ");
    push_count(&mut out, number);
    push_word(&mut out, b": ");
    push_reason(&mut out, number, breach, text.as_slice());
    push_word(&mut out, b"\n    ");
    push_shown(&mut out, text.as_slice());
    push_word(&mut out, b"\n");
    let over = over_word(breach.word, breach.bound, text.as_slice());
    push_mark(&mut out, over, text.as_slice());
    out
}

// The letters in front of a dump, of which so many are there.
fn letters_of(bytes: u64) -> &'static [u8]
    ensures { AreWords result.now (letters_text bytes) 40 }
{
    if bytes < 8 {
        b", whose letters in front are VMSDUMP1"
    } else {
        b""
    }
}

// The message about bytes that are no dump, of which so many begin one.
fn dump_message(bytes: u64) -> ArrayVec<u8, 512>
    ensures { result.items ≡ dump_message bytes }
{
    let mut out = ArrayVec::new();
    push_word(&mut out, b"neqysbar: the first ");
    push_decimal(&mut out, bytes);
    push_word(&mut out, b" bytes begin a dump");
    push_word(&mut out, letters_of(bytes));
    push_word(&mut out, b"; the next one is wrong, or is missing\n");
    out
}

// What a command takes.
fn taken_by(command: CommandName) -> &'static [u8]
    ensures { AreWords result.now (takes_text command) 100 }
{
    match command {
        CommandName::Serial => b"serial takes its trace from standard input: serial < FILE",
        CommandName::Replay => b"replay takes its trace from standard input: replay < FILE",
        CommandName::Study =>
            b"study takes --process X and --frames K, each once, and no other word",
        CommandName::Make =>
            b"make takes --seed N, --procs P and --refs R, each once, and no other word",
        CommandName::Check =>
            b"check takes its trace and its log from standard input: check < FILE",
        CommandName::Dump =>
            b"dump takes its trace from standard input and writes bytes: dump < TRACE > FILE",
        CommandName::Show => b"show takes its dump from standard input: show < FILE",
    }
}

// Adds that an option is missing, and what its command takes.
fn add_missing(out: &mut ArrayVec<u8, 1792>, option: LineOption)
    requires { array_vec_len out.old ≤ 10 }
    ensures { Adds out.old.items out.new.items (missing_text option) 370 }
{
    push_word(out, words_of(option).name);
    push_word(out, b" is missing: ");
    push_word(out, taken_by(command_with(option)));
}

// Adds what is wrong with a command line.
fn add_said(out: &mut ArrayVec<u8, 1792>, fault: LineFault, text: &ArrayVec<u8, 80>)
    requires { array_vec_len out.old ≤ 10 }
    ensures { Adds out.old.items out.new.items (said_text fault text.now.items) 370 }
{
    match fault {
        LineFault::NotText => push_word(out, b"a word isn't UTF-8"),
        LineFault::NoCommand => push_word(out, b"no command"),
        LineFault::NoSuchCommand => {
            push_word(out, b"no such command: ");
            push_shown(out, text.as_slice());
        }
        LineFault::Missing(option) => add_missing(out, option),
        LineFault::BadValue(option) => {
            let words = words_of(option);
            push_word(out, words.name);
            push_word(out, b" is ");
            push_word(out, words.range);
        }
        LineFault::Other(command) => push_word(out, taken_by(command)),
    }
}

// The message about a command line.
fn usage_message(fault: LineFault, text: &ArrayVec<u8, 80>) -> ArrayVec<u8, 1792>
    ensures { result.items ≡ usage_message fault text.now.items }
{
    let mut out = ArrayVec::new();
    push_word(&mut out, b"neqysbar: ");
    add_said(&mut out, fault, text);
    push_word(&mut out, b"\n");
    push_word(&mut out, USAGE);
    out
}

// Writes a message and hands it on. What fails is told nowhere.
fn say<M: Sink>(message: &[u8], messages: &mut M)
    ensures { IsSaid (M.seen messages.old) (M.seen messages.new) message.now }
{
    match write_whole(messages, message) {
        Ok(()) => {
            let _ = messages.flush();
        }
        Err(_) => {}
    }
}

// Writes what is wrong with the input.
fn explain_wrong<M: Sink>(wrong: Wrong, text: &ArrayVec<u8, 80>, messages: &mut M)
    ensures { IsSaid (M.seen messages.old) (M.seen messages.new) (wrong_message wrong text.now.items) }
{
    match wrong {
        Wrong::Line(number, breach) => {
            say(fault_message(number, breach, text).as_slice(), messages)
        }
        Wrong::Empty => say(EMPTY, messages),
        Wrong::Unfinished => say(UNFINISHED, messages),
        Wrong::LogTooLong => say(TOO_LONG, messages),
        Wrong::LogLine(number, why) => { say(log_message(number, &why, text).as_slice(), messages) }
        Wrong::DumpByte(bytes) => say(dump_message(bytes).as_slice(), messages),
        Wrong::Undeclared(_) => say(UNDECLARED, messages),
    }
}

// What is said beside a status by itself.
fn status_message(status: u8) -> &'static [u8]
    ensures { result.now ≡ status_message status }
{
    if status == 3 {
        b"neqysbar: standard input can't be read\n"
    } else if status == 4 {
        b"neqysbar: standard output can't be written\n"
    } else if status == 6 {
        b"neqysbar: a block of the disk can't be made\n"
    } else if status == 7 {
        b"neqysbar: out of memory\n"
    } else {
        b""
    }
}

// Writes what is wrong with the command line, if that is handed on, and usage.
fn explain_line<M: Sink>(line: Option<LineFault>, text: &ArrayVec<u8, 80>, messages: &mut M)
    ensures { IsSaid (M.seen messages.old) (M.seen messages.new) (line_message line text.now.items) }
{
    match line {
        Some(fault) => say(usage_message(fault, text).as_slice(), messages),
        None => say(USAGE, messages),
    }
}

// Writes the message beside a status by itself.
fn explain_status<M: Sink>(
    status: u8,
    line: Option<LineFault>,
    text: &ArrayVec<u8, 80>,
    messages: &mut M,
)
    ensures { IsSaid (M.seen messages.old) (M.seen messages.new) (message_of None line text.now.items status) }
{
    if status == 1 {
        explain_line(line, text, messages)
    } else {
        say(status_message(status), messages)
    }
}

/// Writes the message that goes with a status: for an input that is wrong the number of the faulty line, why it
/// is at fault and its first bytes, with a mark below the word that is wrong or over its bound, or that the input is empty, or
/// that the trace is unfinished or lacks the process that was asked for, or that a log is too long, or the
/// number of the line at which a log isn't legal and its first bytes, or after how many bytes an input is no
/// dump; else what is wrong with the command line and usage beside 1, what failed beside 3, 4, 6 and 7, and
/// nothing beside others. Doesn't allocate.
pub fn explain<M: Sink>(
    status: u8,
    wrong: Option<Wrong>,
    line: Option<LineFault>,
    text: &ArrayVec<u8, 80>,
    messages: &mut M,
)
    ensures { IsSaid (M.seen messages.old) (M.seen messages.new) (message_of wrong line text.now.items status) }
{
    match wrong {
        Some(wrong) => {
            if status == 4 || status == 7 {
                say(status_message(status), messages)
            } else {
                explain_wrong(wrong, text, messages)
            }
        }
        None => explain_status(status, line, text, messages),
    }
}
