ghost use Rattle.log_laws.specs.Laws.{
  CutLogsAreAtFault,
  FaultsAreNoRuns,
  FaultsStand,
  LegalLinesAreShort,
  LegalLogsAreRuns,
  LegalLogsAreShort,
  NoneIsUnjudged,
  OneVerdict,
  RunsAreLegalLogs,
  RunsAreLegalOrTooLong,
};

/// The lines of a legal log are the text of a run that is right, in order and whole, with its report and
/// its rundown. For a well-formed configuration they are no more than a log may have.
pub fn legal_logs_are_runs()
    ensures runs { LegalLogsAreRuns }
    ensures short { LegalLogsAreShort }
{}

/// The text of such a run is a legal log if it has no more lines than a log may have; and any such text
/// is a legal log or too long.
pub fn runs_are_legal_logs()
    ensures short { RunsAreLegalLogs }
    ensures any { RunsAreLegalOrTooLong }
{}

/// For a well-formed configuration a text has one verdict at most: it is legal with one number of
/// entries, at fault at one line, or too long. And that a text had none would be absurd.
pub fn one_verdict()
    ensures one { OneVerdict }
    ensures some { NoneIsUnjudged }
{}

/// A text that is at fault at a line that is ended is at fault there whatever follows that line, and no
/// run's text begins so.
pub fn a_fault_stands()
    ensures stands { FaultsStand }
    ensures runs { FaultsAreNoRuns }
{}

/// A legal log that is cut short is at fault at the line after its last whole one.
pub fn cut_logs_are_at_fault()
    ensures { CutLogsAreAtFault }
{}

/// For a well-formed configuration a line that is a legal next one after legal lines, which are no more than
/// a log may have, has at most 255 bytes.
pub fn legal_lines_are_short()
    ensures { LegalLinesAreShort }
{}
