ghost use Rattle.pager_laws.specs.Laws.{
  OpeningIsKept,
  StepsKeep,
  KeptIsSound,
  RunsAreSound,
  MapsFollow,
  TouchedFollows,
  CarriersBalance,
  RunsAreOfConfig,
  FlightsAreOfBlocks,
  CountsAreFew,
  OpenExactly,
  StartsOnce,
};

/// The working form of soundness: the opening state of a well-formed configuration has it, a legal
/// step of any seat and of any of the sixteen kinds keeps it, and it implies the thirteen points.
pub fn steps_keep_soundness()
    ensures opening { OpeningIsKept }
    ensures steps { StepsKeep }
    ensures points { KeptIsSound }
{}

/// Every run of a well-formed configuration is sound at each of its prefixes.
pub fn runs_are_sound()
    ensures { RunsAreSound }
{}

/// Along a run the pager has the flat machine's maps and touched pages.
pub fn flat_machine_follows()
    ensures maps { MapsFollow }
    ensures touched { TouchedFollows }
{}

/// Of a seat's carrier as many flights are open as were begun and haven't landed.
pub fn carriers_balance()
    ensures { CarriersBalance }
{}

/// Along a run what is mapped, held, assigned and in flight is of the configuration.
pub fn runs_are_of_configuration()
    ensures state { RunsAreOfConfig }
    ensures flights { FlightsAreOfBlocks }
{}

/// The references and faults of a process since its last adjustment are no more than the entries.
pub fn counts_are_few()
    ensures { CountsAreFew }
{}

/// A flight is open exactly where it was begun and no landing names it, and each entry begins one at
/// most.
pub fn flights_are_open()
    ensures exactly { OpenExactly }
    ensures once { StartsOnce }
{}
