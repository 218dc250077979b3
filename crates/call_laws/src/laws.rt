ghost use Rattle.call_laws.specs.Laws.{
  AdvanceIsLegal,
  BeginIsLegal,
  ComeIsLegal,
  ComerIsTurned,
  GoneIsTurned,
  LeaveIsLegal,
  ServeIsLegal,
  VictimIsTurned,
};

/// All that a reference's next step makes is legal, each entry after those before it: an adjustment, a
/// refusal, an answer, a collision, a replacement, a page that comes back, zeros, or the reads of a
/// cluster.
pub fn advance_is_legal()
    ensures { AdvanceIsLegal }
{}

/// All that a service's next step makes is legal: an eviction of a page of its range, or its answer.
pub fn serve_is_legal()
    ensures { ServeIsLegal }
{}

/// All the writes of a cluster of the modified page writer are legal, each behind the one before it, by
/// any seat without an open flight.
pub fn begin_is_legal()
    ensures { BeginIsLegal }
{}

/// All that a step of a leaving process makes is legal, by any seat without an open flight: the eviction
/// of a shared or a saved page, the writes of a run of its slots, or its last turn.
pub fn leave_is_legal()
    ensures { LeaveIsLegal }
{}

/// All that a step of a coming process makes is legal, by any seat without an open flight: a page that
/// comes back from the free list, the reads of a run of its swap blocks, or its turn to resident.
pub fn come_is_legal()
    ensures { ComeIsLegal }
{}

/// The turns of a process's status that a swap begins with are legal, by any seat without an open
/// flight: the process that is chosen to leave, one that is gone and comes, and one that was coming and
/// has to leave first.
pub fn turns_are_legal()
    ensures victim { VictimIsTurned }
    ensures gone { GoneIsTurned }
    ensures comer { ComerIsTurned }
{}
