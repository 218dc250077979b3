ghost use Rattle.paging_study.specs.Laws.{CutsBoundFaults, HasOneChoice};

/// No two choices of kept intervals and cuts keep the rule of `least_faults`.
pub fn least_faults_has_one_choice()
    ensures { HasOneChoice }
{}

/// Whatever places are taken as cuts, every schedule has at least the faults that they show.
pub fn cuts_bound_faults()
    ensures { CutsBoundFaults }
{}
