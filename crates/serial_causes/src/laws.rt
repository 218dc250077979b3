ghost use Rattle.serial_causes.specs.Laws.{RundownIsCaused, SerialIsCaused, WholeIsCaused};

/// Each entry that the serial policy makes has its cause in the entries before it, from the first request on: it does
/// nothing without a cause.
pub fn serial_is_caused()
    ensures { SerialIsCaused }
{}

/// So does each entry of a whole serial journal: those up to the report's place, and those of the rundown behind it.
pub fn whole_serial_is_caused()
    ensures { WholeIsCaused }
{}

/// Each entry of a rundown has its cause, if each before it has, whoever made those.
pub fn rundown_is_caused()
    ensures { RundownIsCaused }
{}
