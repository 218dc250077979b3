ghost use Rattle.turn_causes.specs.Laws.{StepsAreCaused, TurnsAreCaused, WholeInTurnsIsCaused};

/// Each entry that a step of a seat's turn makes has its cause, if each before it has, the request is the next one of the
/// seat's process, and nothing of the seat is in flight.
pub fn steps_are_caused()
    ensures { StepsAreCaused }
{}

/// So has each entry of a whole turn: its landings, and the step or the refusal behind them.
pub fn turns_are_caused()
    ensures { TurnsAreCaused }
{}

/// Each entry of a journal that is made in turns, one after another, has its cause.
pub fn whole_in_turns_is_caused()
    ensures { WholeInTurnsIsCaused }
{}
