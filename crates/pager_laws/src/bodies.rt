ghost use Rattle.pager_laws.specs.BodyLaws.{
  BytesStay,
  FlatIsSame,
  FormedStays,
  OrderStays,
  RightStays,
  RundownsEnd,
  RunsGoOn,
  RunsStay,
  StateIsSame,
};

/// Whatever the body, a past leads to the same state of the pager and to the same flat state, its right values
/// are right, and buffers and blocks have the bytes that they should.
pub fn bodies_change_nothing()
    ensures pager { StateIsSame }
    ensures flat { FlatIsSame }
    ensures right { RightStays }
    ensures bytes { BytesStay }
{}

/// A configuration with one more request that may be added is well formed, and what is in order under the
/// shorter body is in order under the longer one.
pub fn bodies_grow()
    ensures formed { FormedStays }
    ensures order { OrderStays }
{}

/// Before the first eviction of the rundown a run is one whatever the body: so it goes on as a run of the
/// configuration with one more request, legal, right, in order and sound. After it, it doesn't.
pub fn runs_stay()
    ensures stay { RunsStay }
    ensures on { RunsGoOn }
    ensures end { RundownsEnd }
{}
