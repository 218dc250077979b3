ghost use Rattle.serial_laws.specs.Alone.{AloneFindsAPage};
ghost use Rattle.serial_laws.specs.Lost.{LostWhenFailed};
ghost use Rattle.serial_laws.specs.Refused.{FailuresRefuseOnce};

/// When no transfer is open and no reuse is due, a process whose fellows are all gone finds a page on the
/// free list or on the modified list: its working set is smaller than the frames that aren't bad.
pub fn alone_finds_a_page()
    ensures { AloneFindsAPage }
{}

/// Once a seat's carrier has landed, it is lost if all its lifts failed, or if it began with the read of a
/// fault and that failed: so the request that the seat worked for may be refused for it.
pub fn failed_carriers_are_lost()
    ensures { LostWhenFailed }
{}

/// Along every run the requests of a seat's process that were refused for a failed transfer are at most the
/// transfers of that seat that failed: one failed transfer refuses at most one request, and none of another
/// process.
pub fn failures_refuse_once()
    ensures { FailuresRefuseOnce }
{}
