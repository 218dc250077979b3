ghost use Rattle.policy_ends.specs.RundownLaws.{DirtyBecause, NoFailureNoDirt};

/// Along every whole run: if no transfer of the rundown failed, no shared page is held with its modify mark
/// set at the end, so that the run has no dirty page.
pub fn no_failure_no_dirt()
    ensures { NoFailureNoDirt }
{}

/// Along every whole run: a shared page is dirty at the end, held with its modify mark set, exactly if the last
/// write of its frame in the rundown failed, or its eviction stayed stopped, so that it is still in a slot.
pub fn dirty_because()
    ensures { DirtyBecause }
{}
