ghost use Rattle.trace_reader.specs.Laws.{ReadIsWellFormed, FaultStays};

/// The law that what is read is well formed. It does nothing.
pub fn what_is_read_is_well_formed()
    ensures { ReadIsWellFormed }
{}

/// The law that a text that shows a fault keeps it, whatever follows. It does nothing.
pub fn a_shown_fault_stays()
    ensures { FaultStays }
{}
