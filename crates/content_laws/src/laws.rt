ghost use Rattle.content_laws.specs.Stability.{LiftsStay};
ghost use Rattle.content_laws.specs.Laws.{
  ContentOpens,
  ContentStays,
  DoneIsRight,
  ReadBegins,
  WriteBegins,
  CarriedWellFits,
  CarriedBadlyFits,
  BadIsCounted,
  BlocksAreHome,
  BlocksAreWrittenBack,
  NowhereIsUncharged,
};

/// A transfer that was begun, carried or not, still fits the journal after any legal step of any seat
/// that doesn't land it.
pub fn lifts_stay()
    ensures { LiftsStay }
{}

/// The bytes in buffers and blocks are those of the flat machine: at the opening, and after any legal
/// entry of any seat and of any of the sixteen kinds, with the buffers and blocks that it moves.
pub fn content_stays()
    ensures opening { ContentOpens }
    ensures entries { ContentStays }
{}

/// If the bytes of blocks are known, what a legal reference reads from its frame's buffer is the flat
/// machine's reply.
pub fn done_is_right()
    ensures { DoneIsRight }
{}

/// The lift of a transfer that has just begun fits the journal.
pub fn begun_fits()
    ensures reads { ReadBegins }
    ensures writes { WriteBegins }
{}

/// A lift still fits the journal after its block's one call; after a bad one it shows the block's last
/// count of failures, and a greater one.
pub fn carried_fits()
    ensures well { CarriedWellFits }
    ensures badly { CarriedBadlyFits }
    ensures counted { BadIsCounted }
{}

/// When no flight is open, each block is home and counted. If the bytes of blocks are known, shared pages
/// that aren't dirty and lie in a block are written back, and blocks of copy on reference sections have
/// their first bytes. A shared page that lies nowhere and isn't dirty was never charged.
pub fn blocks_are_home()
    ensures home { BlocksAreHome }
    ensures bytes { BlocksAreWrittenBack }
    ensures nowhere { NowhereIsUncharged }
{}
