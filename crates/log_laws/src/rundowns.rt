ghost use Rattle.log_laws.specs.RundownLaws.{
  EndingIsAtRest,
  NextRundownIsAStep,
  NoMoveIsRest,
  RundownIsStepwise,
};

/// Legal entries after the report are the first ones of a rundown exactly if they lead, each by a step that
/// is computed, to a place underway (`all`); from such a place one more entry may come exactly if it is a
/// step (`next`).
pub fn rundowns_are_stepwise()
    ensures all { RundownIsStepwise }
    ensures next { NextRundownIsAStep }
{}

/// The entries after the report are the whole rundown exactly if they stand between two moves where the
/// policy has none (`ending`); and where the plan has no move the policy rests (`plan`).
pub fn endings_are_at_rest()
    ensures ending { EndingIsAtRest }
    ensures plan { NoMoveIsRest }
{}
