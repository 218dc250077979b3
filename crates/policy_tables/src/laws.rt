ghost use Rattle.policy_tables.specs.Laws.{
  ClustersGoByCases,
  ComingGoesByCases,
  LeavingGoesByCases,
  MovesGoByCases,
  ReferencesGoByCases,
  RundownGoesByCases,
  ServicesGoByCases,
};

/// What is made for a reference of one of the configuration's processes is what the first row of the table
/// `advance_cases` says that holds, and one holds always. It is asked that the flat machine has the pager's
/// mappings, which is so in each run.
pub fn references_go_by_cases()
    ensures { ReferencesGoByCases }
{}

/// What is made for a service is what the first row of the table `serve_cases` says that holds.
pub fn services_go_by_cases()
    ensures { ServicesGoByCases }
{}

/// What a write cluster of the modified page writer makes, for either reason, is what the first row of the table
/// `begin_cases` says that holds.
pub fn clusters_go_by_cases()
    ensures { ClustersGoByCases }
{}

/// What a step of a process that leaves memory makes is what the first row of the table `leave_cases` says that
/// holds.
pub fn leaving_goes_by_cases()
    ensures { LeavingGoesByCases }
{}

/// What a step of a process that comes back to memory makes is what the first row of the table `come_cases` says
/// that holds.
pub fn coming_goes_by_cases()
    ensures { ComingGoesByCases }
{}

/// Each move of the rundown, wherever it is, is what the first row of the table `rundown_cases` says that holds.
pub fn rundown_goes_by_cases()
    ensures { RundownGoesByCases }
{}

/// Each move of the serial policy, wherever it is, is what the first row of the tables `move_cases` says that
/// holds, and one holds always. It is asked that the next request is of one of the configuration's processes, and
/// that the flat machine has the pager's mappings; both are so in each run of a well-formed configuration.
pub fn moves_go_by_cases()
    ensures { MovesGoByCases }
{}
