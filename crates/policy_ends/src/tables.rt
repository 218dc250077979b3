ghost use Rattle.policy_ends.specs.ByTables.{MovesAreFirstRows, SerialRunsGoByCases};

/// Each move of the serial policy in a run of a well-formed configuration, in the body and in the rundown, is
/// what the first row of the tables `move_cases` says that holds; and so is each of the moves by which a serial
/// run was reached. The reply that stands in a DONE is the one that the move was told.
pub fn serial_runs_go_by_cases()
    ensures moves { MovesAreFirstRows }
    ensures runs { SerialRunsGoByCases }
{}
