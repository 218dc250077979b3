ghost use Rattle.std.specs.Prelude.{◌≡◌, IfOk, IfSome, IfNone, OnErr, Some, map};
ghost use Rattle.replay_cli.specs.Commands.{Asks, HasOptionWords, HasNumbersInRange, plain_word};
ghost use Rattle.replay_cli.specs.declared.words.Command.{Command};

use command_options::first_word;
use run_commands::{Make, make_of};
use std::alloc::Global;
use study_command::{Study, study_of};
use vm_text::is;
use vm_types::NoMemory;

/// What a command line asks for.
#[derive(Clone, Copy, Debug, PartialEq, Eq)]
pub enum Command {
    /// Read a trace, answer its requests in order, and write the entries and the report.
    Serial,
    /// Read a trace, answer its requests by threads, and write the entries and the report.
    Replay,
    /// Read a trace, run nothing, and write what the references of a process cost.
    Study(Study),
    /// Make a trace, answer its requests in order, and write how many entries of each kind there are.
    Make(Make),
    /// Read a trace and a log behind it, run nothing, and say whether the log is legal.
    Check,
    /// Read a trace, answer its requests in order, and write the dump of the state after them.
    Dump,
    /// Read a dump, run nothing, and write what it holds and what is wrong in it.
    Show,
}

/// The command of this name, if it takes no options.
fn plain_command(name: &[u8]) -> Option<Command>
    ensures some { IfSome result (λ command. plain_word command ≡ Some name.now) }
    ensures none { IfNone result ((command : Command) → plain_word command ≡ Some name.now → ⊥) }
    ensures bounded { IfSome result HasNumbersInRange }
{
    match name {
        b"serial" => Some(Command::Serial),
        b"replay" => Some(Command::Replay),
        b"check" => Some(Command::Check),
        b"dump" => Some(Command::Dump),
        b"show" => Some(Command::Show),
        _ => None,
    }
}

/// The command for which the words ask: the one word `serial`, `replay`, `check`, `dump` or `show`, or `study` and
/// its two options, or `make` and its three. None if they are no command line. Fails only if the first word is `study` or
/// `make` and memory runs out.
pub fn command_of<'a>(alloc: Global, words: &'a [&'a str]) -> Result<Option<Command>, NoMemory>
    ensures some { IfOk result (λ found. IfSome found (Asks (map (λ word. word.now) words.now))) }
    ensures none { IfOk result (λ found. IfNone found ((command : Command) → Asks (map (λ word. word.now) words.now) command → ⊥)) }
    ensures bounded { IfOk result (λ found. IfSome found HasNumbersInRange) }
    ensures memory { OnErr result (HasOptionWords (map (λ word. word.now) words.now)) }
{
    let Some((first, rest)) = first_word(words) else {
        return Ok(None);
    };
    if let Some(command) = plain_command(first) {
        return if rest.is_empty() {
            Ok(Some(command))
        } else {
            Ok(None)
        };
    }
    if is(first, b"study") {
        return match study_of(alloc, rest) {
            Ok(Some(study)) => Ok(Some(Command::Study(study))),
            Ok(None) => Ok(None),
            Err(fault) => Err(fault),
        };
    }
    if !is(first, b"make") {
        return Ok(None);
    }
    match make_of(alloc, rest) {
        Ok(Some(make)) => Ok(Some(Command::Make(make))),
        Ok(None) => Ok(None),
        Err(fault) => Err(fault),
    }
}
