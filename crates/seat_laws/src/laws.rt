ghost use Rattle.seat_laws.specs.Laws.{
  FailedReadsAreLost,
  FreeMayBegin,
  InvalidIsUnmet,
  LostIsRefused,
  OthersStay,
  ReadsAreFor,
};

/// The entries of one seat leave another seat's open transfers, and what is kept of its carrier.
pub fn others_stay()
    ensures { OthersStay }
{}

/// The reads that a reference begins are for it: the first one is of its own page.
pub fn reads_are_for()
    ensures { ReadsAreFor }
{}

/// Reads for a reference of which the first has failed are lost.
pub fn failed_reads_are_lost()
    ensures { FailedReadsAreLost }
{}

/// A reference whose reads were lost may be refused if it is still to be met.
pub fn lost_is_refused()
    ensures { LostIsRefused }
{}

/// A reference to a page that is mapped and not valid is still to be met.
pub fn invalid_is_unmet()
    ensures { InvalidIsUnmet }
{}

/// A seat that has nothing open may begin to work if no reuse is due.
pub fn free_may_begin()
    ensures { FreeMayBegin }
{}
