ghost use Rattle.replay_cli.specs.DumpShown.{DumpsAreShownRight};

/// The law on `dump` and `show` together: what `dump` writes with status 0 is a dump, and what `show`
/// writes of it with status 0 ends with `WRONG 0` and the status. It does nothing.
pub fn dumps_are_shown_right()
    ensures { DumpsAreShownRight }
{}
