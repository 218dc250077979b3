ghost use Rattle.pager_laws.specs.LineLaws.{RunsHaveLines};

/// Each entry of a run has a line: its seat has a name, and each number that its line has is within
/// the bound of its kind.
pub fn runs_have_lines()
    ensures { RunsHaveLines }
{}
