ghost use Rattle.std.specs.Prelude.{◌≡◌, ℕ, List, IfErr};
ghost use Rattle.vm_types.specs.Configuration.{IsWellFormed};
ghost use Rattle.log_check.specs.EntryLine.{IsEntryOf, IsItsLine, IsNoEntry};
ghost use Rattle.log_check.specs.Results.{ok_of};

use entry_lines::read_line;
use log_reasons::LineReason;
use vm_journal::Entry;
use vm_types::Config;

/// The entry of number n, if that is the number.
fn numbered(n: u64, e: Entry, number: u64) -> Result<Entry, LineReason>
    ensures entry { (config : Config) (line : List ℕ) → IsWellFormed config → IsItsLine config n line e → IsEntryOf config number line (ok_of result) }
    ensures none { (config : Config) (line : List ℕ) → IsItsLine config n line e → IfErr result (IsNoEntry config number line) }
{
    if n == number {
        Ok(e)
    } else {
        Err(LineReason::NotNextNumber(number))
    }
}

/// The entry of a line, if it has this number; else why it is none.
pub(crate) fn entry_of(config: &Config, number: u64, line: &[u8]) -> Result<Entry, LineReason>
    requires { IsWellFormed config.now }
    ensures entry { IsEntryOf config.now number line.now (ok_of result) }
    ensures none { IfErr result (IsNoEntry config.now number line.now) }
{
    let procs = config.procs.items().len() as u32;
    match read_line(line, procs, config.sections.items()) {
        Ok((n, e)) => numbered(n, e, number),
        Err(_) => Err(LineReason::NoEntry),
    }
}
