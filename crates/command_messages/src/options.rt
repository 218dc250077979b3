//! What an option is called, and what it may be.

ghost use Rattle.std.specs.Prelude.{◌≡◌};
ghost use Rattle.command_messages.specs.Texts.{AreWords};
ghost use Rattle.command_messages.specs.LineFaults.{command_with, option_word, range_text};

use crate::faults::{CommandName, LineOption};

// The words of an option.
#[derive(Clone, Copy)]
pub(crate) struct OptionWords {
    // Its own word.
    pub(crate) name: &'static [u8],
    // What its value may be.
    pub(crate) range: &'static [u8],
}

// The words of an option that is called so and may be this.
fn words(name: &'static [u8], range: &'static [u8]) -> OptionWords
    ensures name { result.name.now ≡ name.now }
    ensures range { result.range.now ≡ range.now }
{
    OptionWords { name, range }
}

// The option's words.
pub(crate) fn words_of(option: LineOption) -> OptionWords
    ensures name { AreWords result.name.now (option_word option) 9 }
    ensures range { AreWords result.range.now (range_text option) 15 }
{
    match option {
        LineOption::Process => words(b"--process", b"A to P"),
        LineOption::Frames => words(b"--frames", b"1 to 1024"),
        LineOption::Seed => words(b"--seed", b"0 to 4294967295"),
        LineOption::Procs => words(b"--procs", b"1 to 16"),
        LineOption::Refs => words(b"--refs", b"1 to 100000"),
    }
}

// The command that has the option.
pub(crate) fn command_with(option: LineOption) -> CommandName
    ensures { result ≡ command_with option }
{
    match option {
        LineOption::Process | LineOption::Frames => CommandName::Study,
        LineOption::Seed | LineOption::Procs | LineOption::Refs => CommandName::Make,
    }
}
