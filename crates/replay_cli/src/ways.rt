//! Which commands run by threads.

ghost use Rattle.std.specs.Prelude.{◌≡◌};
ghost use Rattle.replay_cli.specs.Commands.{way_of};

use crate::words::Command;

/// On how many threads a command runs.
#[derive(Clone, Copy, Debug, PartialEq, Eq)]
pub enum Way {
    /// On one thread, and it returns: each command but `replay`.
    One,
    /// On many threads, for which it waits: `replay`.
    Many,
}

/// On how many threads the command runs: on many exactly if it is `replay`. Doesn't allocate.
pub fn which(command: Command) -> Way
    ensures { result ≡ way_of command }
{
    match command {
        Command::Replay => Way::Many,
        Command::Serial => Way::One,
        Command::Study(_) => Way::One,
        Command::Make(_) => Way::One,
        Command::Check => Way::One,
        Command::Dump => Way::One,
        Command::Show => Way::One,
    }
}
