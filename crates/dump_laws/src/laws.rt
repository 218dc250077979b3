ghost use Rattle.dump_laws.specs.Laws.{DumpsAreSound};

/// The dump after each run of a well-formed configuration keeps the bounds, codes and orders of its
/// layout, its recount shows nothing wrong, and its text ends by saying so. It does nothing.
pub fn dumps_of_runs_are_sound()
    ensures { DumpsAreSound }
{}
