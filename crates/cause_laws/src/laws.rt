ghost use Rattle.cause_laws.specs.Laws.{
  AdvanceIsCaused,
  BeginIsCaused,
  ComeIsCaused,
  LandingsAreCaused,
  LeaveIsCaused,
  NoFrameIsWanted,
  NoFrameToComeIsWanted,
  ServeIsCaused,
  StoppedLeavingIsHeldUp,
  StoppedReferenceIsHeldUp,
  StoppedRundownIsHeldUp,
  StoppedServiceIsHeldUp,
  VictimIsCaused,
};

/// All that a reference's next step makes has its cause, if the reference is what the process asks for next: a
/// collision, a replacement, a page that comes back, zeros, or the reads of a cluster.
pub fn advance_is_caused()
    ensures { AdvanceIsCaused }
{}

/// All the writes of a cluster of the modified page writer have their cause if the first one has: each goes on
/// with the cluster of the one before it.
pub fn begin_is_caused()
    ensures { BeginIsCaused }
{}

/// All that a step of a coming process makes has its cause, if the process has a request: a page that comes back, or
/// the reads of pages that lie in its swap blocks.
pub fn come_is_caused()
    ensures { ComeIsCaused }
{}

/// All that a step of a leaving process makes has its cause: that the process is leaving.
pub fn leave_is_caused()
    ensures { LeaveIsCaused }
{}

/// All that a service's next step makes has its cause, if the service is what the process asks for next: an
/// eviction of a page of its range, or its answer.
pub fn serve_is_caused()
    ensures { ServeIsCaused }
{}

/// A reference for which there is no frame wants one, and none is free.
pub fn no_frame_is_wanted()
    ensures { NoFrameIsWanted }
{}

/// A coming process for which there is no frame wants one, and none is free.
pub fn no_frame_to_come_is_wanted()
    ensures { NoFrameToComeIsWanted }
{}

/// A reference that waits for the modified list has an eviction that is held up: the replacement of its ring's victim,
/// which would be legal with a greater wait limit.
pub fn stopped_reference_is_held_up()
    ensures { StoppedReferenceIsHeldUp }
{}

/// A service that waits for the modified list has an eviction that is held up: of a page of its range.
pub fn stopped_service_is_held_up()
    ensures { StoppedServiceIsHeldUp }
{}

/// A leaving process that waits for the modified list has an eviction that is held up: of a shared page.
pub fn stopped_leaving_is_held_up()
    ensures { StoppedLeavingIsHeldUp }
{}

/// Once every request is answered, a shared page whose eviction is stopped is held up.
pub fn stopped_rundown_is_held_up()
    ensures { StoppedRundownIsHeldUp }
{}

/// Once a seat's flights have landed each entry has its cause, if each before them has: a landing has its flight, and
/// the reuse behind a read that failed has that.
pub fn landings_are_caused()
    ensures { LandingsAreCaused }
{}

/// The process that is chosen to leave leaves for a cause where no page is on the modified list and no process is
/// leaving: another one wants a frame and none is free, or the swapper lacks free frames.
pub fn victim_is_caused()
    ensures { VictimIsCaused }
{}
