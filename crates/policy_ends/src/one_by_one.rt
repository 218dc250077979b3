ghost use Rattle.policy_ends.specs.Asked.{AskedIsOne, AskedIsReached, AskedIsSerial};
ghost use Rattle.policy_ends.specs.BodyMoves.{
  BodyHasNoRundown,
  ControlStays,
  MadeAreSame,
  MovesAreSame,
  MovesStay,
  RestsGoOn,
};

/// With one more request the serial policy makes the same moves as long as a request of the shorter body is
/// left, and wherever it makes one; where it rests at that body's end, it goes on to the new request. So all that
/// it leads to under the shorter body it leads to under the longer one.
pub fn moves_stay()
    ensures same { MovesAreSame }
    ensures made { MadeAreSame }
    ensures on { RestsGoOn }
    ensures stay { MovesStay }
{}

/// Up to the report's place the serial policy is where it fits the past under a body with one more request.
pub fn control_stays()
    ensures { ControlStays }
{}

/// Up to the report's place the serial policy makes none of the rundown's evictions, so its run may go on with
/// one more request.
pub fn bodies_have_no_rundown()
    ensures { BodyHasNoRundown }
{}

/// A pager that is asked one request at a time makes what the serial policy makes of the trace with these
/// requests, and rests where all of them are answered.
pub fn asked_is_serial()
    ensures reached { AskedIsReached }
    ensures serial { AskedIsSerial }
    ensures one { AskedIsOne }
{}
