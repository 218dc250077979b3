ghost use Rattle.serial_laws.specs.Laws.{
  CarriersStayBetween,
  CleaningControlFits,
  FirstControlFits,
  MadeTurnsAreLegal,
  MovesAddEntries,
  MovesKeep,
  MovesStayBetween,
  RefusalIsLegal,
  RestsAtTheEnd,
  SeatsMayWork,
  TaskIsFormed,
};

/// Before the first request, and where the rundown begins, the policy is where it fits the past.
pub fn first_control_fits()
    ensures first { FirstControlFits }
    ensures cleaning { CleaningControlFits }
{}

/// The next task's process is one of the configuration, and its request is well formed.
pub fn task_is_formed()
    ensures { TaskIsFormed }
{}

/// Where it fits the past and is not in the rundown, the policy rests only if no request is left: it never
/// waits for a transfer, a charge or a process that isn't resident, and it always finds a frame.
pub fn rests_at_the_end()
    ensures { RestsAtTheEnd }
{}

/// Each move leads from where the policy fits the past to where it fits the longer one. If its entries were
/// legal, no flight is open and no reuse is due after it, nor before the refusal that a landing leads to.
pub fn moves_keep()
    ensures control { MovesKeep }
    ensures between { MovesStayBetween }
    ensures landed { CarriersStayBetween }
{}

/// If the failure of a carrier refuses the next request, that is the request of the carrier's own seat, and
/// its refusal is legal once the carrier has landed.
pub fn refusal_is_legal()
    ensures { RefusalIsLegal }
{}

/// Between two moves each seat may begin its work, and each turn of a process's status that is a move is
/// legal.
pub fn made_moves_are_legal()
    ensures seats { SeatsMayWork }
    ensures turns { MadeTurnsAreLegal }
{}

/// Each move makes the past longer.
pub fn moves_add_entries()
    ensures { MovesAddEntries }
{}
